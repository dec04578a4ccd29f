//! The edges of the graph of a recorded history.
ghost use Rattle.std.specs.Prelude.{◌≡◌, ◌+◌, ◌-◌, ◌*◌, ◌<◌, ◌≤◌, length, OnOk, IfOk};
ghost use Rattle.tx_order.specs.declared.graph.Edge.{Edge};
ghost use Rattle.tx_history.specs.Graph.{IsGraph};
ghost use Rattle.tx_history.specs.Records.{IsRecorded, history_of, writers_of};
ghost use Rattle.tx_history.specs.Additions.{Adds, Each, AreFew, IsFew, IsVersionEdge, IsSeenEdge, IsNextEdge, IsReadEdge, IsOwnOf, IsVersionOf, IsReadOf, IsAfterOf, before_edge, after_edge};

use crate::recorded::{Read, Recorded};
use std::alloc::{AllocError, Global};
use tx_order::Edge;

// The start of one transaction lies below the commit of another.
fn before(start: u32, commit: u32) -> Edge
    requires start { IsFew start }
    requires commit { IsFew commit }
    ensures { result ≡ before_edge start commit }
{
    Edge {
        from: 2 * start,
        to: 2 * commit + 1,
    }
}

// The commit of one transaction lies below the start of another.
fn after(commit: u32, start: u32) -> Edge
    requires start { IsFew start }
    requires commit { IsFew commit }
    ensures { result ≡ after_edge commit start }
{
    Edge {
        from: 2 * commit + 1,
        to: 2 * start,
    }
}

// Adds an edge.
fn add(edges: &mut Vec<Edge>, edge: Edge) -> Result<(), AllocError>
    ensures added { OnOk result (Adds edges.old.items edges.new.items (λ e. e ≡ edge)) }
    ensures few { OnOk result (length edges.new.items ≡ length edges.old.items + 1) }
{
    edges.push(edge)?;
    Ok(())
}

// Adds each transaction's own edge.
fn add_own(edges: &mut Vec<Edge>, recorded: &Recorded) -> Result<(), AllocError>
    requires { IsRecorded recorded.now }
    ensures added { OnOk result (Adds edges.old.items edges.new.items (IsOwnOf recorded.now)) }
    ensures few { OnOk result (length edges.new.items ≡ length edges.old.items + recorded.now.txns) }
{
    for txn in 0..recorded.txns {
        add(edges, before(txn, txn))?;
    }
    Ok(())
}

// Adds the edge from a version's writer to that of the next one, where there is a next.
fn add_version(edges: &mut Vec<Edge>, writers: &[u32], i: usize) -> Result<(), AllocError>
    requires within { i < length writers.now }
    requires few { AreFew writers.now }
    ensures added { OnOk result (Adds edges.old.items edges.new.items (IsVersionEdge writers.now i)) }
    ensures few { OnOk result (length edges.new.items ≤ length edges.old.items + 1) }
{
    if i + 1 < writers.len() {
        return add(edges, after(writers[i], writers[i + 1]));
    }
    Ok(())
}

// Adds the edges of all versions of a key.
fn add_versions(edges: &mut Vec<Edge>, writers: &[u32]) -> Result<(), AllocError>
    requires { AreFew writers.now }
    ensures added { OnOk result
        (Adds edges.old.items edges.new.items (Each (length writers.now) (IsVersionEdge writers.now))) }
    ensures few { OnOk result (length edges.new.items ≤ length edges.old.items + length writers.now) }
{
    for i in 0..writers.len() {
        add_version(edges, writers, i)?;
    }
    Ok(())
}

// Adds the edges of all versions of all keys.
fn add_keys(edges: &mut Vec<Edge>, recorded: &Recorded) -> Result<(), AllocError>
    requires { IsRecorded recorded.now }
    ensures added { OnOk result (Adds edges.old.items edges.new.items (IsVersionOf recorded.now)) }
    ensures few { OnOk result (length edges.new.items ≤ length edges.old.items + length recorded.now.writers.items) }
{
    for key in 0..recorded.heads.len() {
        add_versions(edges, recorded.writers_of(key))?;
    }
    Ok(())
}

// Adds the edge from the writer of the version that was read.
fn add_seen(edges: &mut Vec<Edge>, writers: &[u32], read: Read) -> Result<(), AllocError>
    requires few { AreFew writers.now }
    requires reader { IsFew read.txn }
    ensures added { OnOk result (Adds edges.old.items edges.new.items (IsSeenEdge writers.now read)) }
    ensures few { OnOk result (length edges.new.items ≤ length edges.old.items + 1) }
{
    let version = read.version as usize;
    if version >= 1 && version <= writers.len() {
        return add(edges, after(writers[version - 1], read.txn));
    }
    Ok(())
}

// Adds the edge to the writer of the version after the one that was read.
fn add_next(edges: &mut Vec<Edge>, writers: &[u32], read: Read) -> Result<(), AllocError>
    requires few { AreFew writers.now }
    requires reader { IsFew read.txn }
    ensures added { OnOk result (Adds edges.old.items edges.new.items (IsNextEdge writers.now read)) }
    ensures few { OnOk result (length edges.new.items ≤ length edges.old.items + 1) }
{
    let version = read.version as usize;
    if version < writers.len() {
        return add(edges, before(read.txn, writers[version]));
    }
    Ok(())
}

// Adds the edges of a read.
fn add_read(edges: &mut Vec<Edge>, writers: &[u32], read: Read) -> Result<(), AllocError>
    requires few { AreFew writers.now }
    requires reader { IsFew read.txn }
    ensures added { OnOk result (Adds edges.old.items edges.new.items (IsReadEdge writers.now read)) }
    ensures few { OnOk result (length edges.new.items ≤ length edges.old.items + 2) }
{
    add_seen(edges, writers, read)?;
    add_next(edges, writers, read)
}

// Adds the edges of all reads.
fn add_reads(edges: &mut Vec<Edge>, recorded: &Recorded) -> Result<(), AllocError>
    requires { IsRecorded recorded.now }
    ensures added { OnOk result (Adds edges.old.items edges.new.items (IsReadOf recorded.now)) }
    ensures few { OnOk result (length edges.new.items ≤ length edges.old.items + 2 * length recorded.now.reads.items) }
{
    for i in 0..recorded.reads.len() {
        let read = recorded.reads[i];
        add_read(edges, recorded.writers_of(read.key as usize), read)?;
    }
    Ok(())
}

// Adds the edges of all that come one after the other.
fn add_pairs(edges: &mut Vec<Edge>, recorded: &Recorded) -> Result<(), AllocError>
    requires { IsRecorded recorded.now }
    ensures added { OnOk result (Adds edges.old.items edges.new.items (IsAfterOf recorded.now)) }
    ensures few { OnOk result (length edges.new.items ≡ length edges.old.items + length recorded.now.after.items) }
{
    for i in 0..recorded.after.len() {
        let pair = recorded.after[i];
        add(edges, after(pair.earlier, pair.later))?;
    }
    Ok(())
}

/// The graph of a history, with a node `2 * t` for the start of `t` and `2 * t + 1` for its commit.
/// Its edges are at most one a transaction, one a version, two a read and one a pair that comes one
/// after the other.
pub fn edges(alloc: Global, recorded: &Recorded) -> Result<Vec<Edge>, AllocError>
    requires { IsRecorded recorded.now }
    ensures graph { IfOk result (λ edges. IsGraph (history_of recorded.now) edges.items) }
    ensures linear { IfOk result (λ edges. length edges.items ≤ recorded.now.txns + length recorded.now.writers.items
        + 2 * length recorded.now.reads.items + length recorded.now.after.items) }
{
    let mut edges = Vec::new(alloc);
    add_own(&mut edges, recorded)?;
    add_keys(&mut edges, recorded)?;
    add_reads(&mut edges, recorded)?;
    add_pairs(&mut edges, recorded)?;
    Ok(edges)
}
