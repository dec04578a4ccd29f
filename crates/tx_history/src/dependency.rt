//! Why each step of a cycle is one.
ghost use Rattle.std.specs.Prelude.{◌≡◌, ◌↔◌, ◌+◌, ◌-◌, ◌<◌, length, IfOk, IfSome, IfNone, IsTrue};
ghost use Rattle.tx_history.specs.Records.{IsRecorded, history_of, writers_of};
ghost use Rattle.tx_history.specs.Graph.{IsEdge, IsCycleOf, IsWw, IsWr, IsRw, IsAfter, before_edge, after_edge};
ghost use Rattle.tx_history.specs.Dependencies.{IsDependency, AreDependencies, IsWwIn, IsNoWwIn, IsSeen, IsNext, next_of};

use crate::recorded::{Read, Recorded};
use std::alloc::{AllocError, Global};

/// Why one moment lies below another under all timestamps of a history.
#[derive(Clone, Copy, Debug, PartialEq, Eq)]
pub enum DependencyKind {
    /// A transaction starts before it commits.
    Own,
    /// The first wrote a version, and the second the next: so it started when the first had
    /// committed.
    Ww,
    /// The first wrote a version that the second read.
    Wr,
    /// The first read a version, and the second wrote the next: so it had not committed when the
    /// first started.
    Rw,
    /// The second is known to have begun after the first had ended.
    After,
}

/// One transaction depends on another.
#[derive(Clone, Copy, Debug, PartialEq, Eq)]
pub struct Dependency {
    pub kind: DependencyKind,
    pub from: u32,
    pub to: u32,
    /// The key, 0 for `Own` and `After`.
    pub key: usize,
    /// The version that the first wrote or read. For `After` it is the place of the pair, and 0
    /// for `Own`.
    pub version: usize,
}

// The first wrote a version of the key and the second the next.
fn ww_in(writers: &[u32], key: usize, from: u32, to: u32) -> Option<Dependency>
    ensures some { IfSome result (IsWwIn writers.now key from to) }
    ensures none { IfNone result (IsNoWwIn writers.now from to) }
{
    for i in 1..writers.len() {
        if writers[i - 1] == from && writers[i] == to {
            return Some(Dependency {
                kind: DependencyKind::Ww,
                from,
                to,
                key,
                version: i,
            });
        }
    }
    None
}

// The first wrote a version of some key and the second the next.
fn ww(recorded: &Recorded, from: u32, to: u32) -> Option<Dependency>
    requires { IsRecorded recorded.now }
    ensures some { IfSome result (λ d. IsDependency (history_of recorded.now) d (after_edge from to)) }
    ensures none { IfNone result (IsWw (history_of recorded.now) (after_edge from to) → ⊥) }
{
    for key in 0..recorded.heads.len() {
        if let Some(found) = ww_in(recorded.writers_of(key), key, from, to) {
            return Some(found);
        }
    }
    None
}

// Whether this is a read of one transaction, of a version that another wrote.
fn is_seen(writers: &[u32], read: Read, from: u32, to: u32) -> bool
    ensures { IsTrue result ↔ IsSeen writers.now read from to }
{
    let version = read.version as usize;
    if read.txn != to || version == 0 || version > writers.len() {
        return false;
    }
    writers[version - 1] == from
}

// Whether this is a read of one transaction, of the version before one that another wrote.
fn is_next(writers: &[u32], read: Read, from: u32, to: u32) -> bool
    ensures { IsTrue result ↔ IsNext writers.now read from to }
{
    let version = read.version as usize;
    if read.txn != from || version >= writers.len() {
        return false;
    }
    writers[version] == to
}

// The second read a version that the first wrote.
fn wr(recorded: &Recorded, from: u32, to: u32) -> Option<Dependency>
    requires { IsRecorded recorded.now }
    ensures some { IfSome result (λ d. IsDependency (history_of recorded.now) d (after_edge from to)) }
    ensures none { IfNone result (IsWr (history_of recorded.now) (after_edge from to) → ⊥) }
{
    for i in 0..recorded.reads.len() {
        let read = recorded.reads[i];
        let writers = recorded.writers_of(read.key as usize);
        if is_seen(writers, read, from, to) {
            return Some(Dependency {
                kind: DependencyKind::Wr,
                from,
                to,
                key: read.key as usize,
                version: read.version as usize,
            });
        }
    }
    None
}

// The second wrote the version after one that the first read.
fn rw(recorded: &Recorded, from: u32, to: u32) -> Option<Dependency>
    requires { IsRecorded recorded.now }
    ensures some { IfSome result (λ d. IsDependency (history_of recorded.now) d (before_edge from to)) }
    ensures none { IfNone result (IsRw (history_of recorded.now) (before_edge from to) → ⊥) }
{
    for i in 0..recorded.reads.len() {
        let read = recorded.reads[i];
        let writers = recorded.writers_of(read.key as usize);
        if is_next(writers, read, from, to) {
            return Some(Dependency {
                kind: DependencyKind::Rw,
                from,
                to,
                key: read.key as usize,
                version: read.version as usize,
            });
        }
    }
    None
}

// The second is known to have begun after the first had ended.
fn after(recorded: &Recorded, from: u32, to: u32) -> Option<Dependency>
    ensures some { IfSome result (λ d. IsDependency (history_of recorded.now) d (after_edge from to)) }
    ensures none { IfNone result (IsAfter (history_of recorded.now) (after_edge from to) → ⊥) }
{
    for i in 0..recorded.after.len() {
        let pair = recorded.after[i];
        if pair.earlier == from && pair.later == to {
            return Some(Dependency {
                kind: DependencyKind::After,
                from,
                to,
                key: 0,
                version: i,
            });
        }
    }
    None
}

// Why there is an edge from one node to another, if there is one.
fn reason(recorded: &Recorded, from: u32, to: u32) -> Option<Dependency>
    requires { IsRecorded recorded.now }
    ensures some { IfSome result (λ d. IsDependency (history_of recorded.now) d record { from = from; to = to }) }
    ensures none { IfNone result (IsEdge (history_of recorded.now) record { from = from; to = to } → ⊥) }
{
    if from % 2 == to % 2 {
        return None;
    }
    if from % 2 == 1 {
        return reason_after(recorded, from / 2, to / 2);
    }
    reason_before(recorded, from / 2, to / 2)
}

// Why the start of the one lies below the commit of the other, if it does.
fn reason_before(recorded: &Recorded, from: u32, to: u32) -> Option<Dependency>
    requires { IsRecorded recorded.now }
    ensures some { IfSome result (λ d. IsDependency (history_of recorded.now) d (before_edge from to)) }
    ensures none { IfNone result (IsEdge (history_of recorded.now) (before_edge from to) → ⊥) }
{
    if from == to && from < recorded.txns {
        return Some(Dependency {
            kind: DependencyKind::Own,
            from,
            to,
            key: 0,
            version: 0,
        });
    }
    rw(recorded, from, to)
}

// Why the commit of the one lies below the start of the other, if it does.
fn reason_after(recorded: &Recorded, from: u32, to: u32) -> Option<Dependency>
    requires { IsRecorded recorded.now }
    ensures some { IfSome result (λ d. IsDependency (history_of recorded.now) d (after_edge from to)) }
    ensures none { IfNone result (IsEdge (history_of recorded.now) (after_edge from to) → ⊥) }
{
    if let Some(found) = ww(recorded, from, to) {
        return Some(found);
    }
    if let Some(found) = wr(recorded, from, to) {
        return Some(found);
    }
    after(recorded, from, to)
}

// The node after one of a cycle's, round.
fn next_of(nodes: &[u32], i: usize) -> u32
    requires { i < length nodes.now }
    ensures { result ≡ next_of nodes.now i }
{
    if i + 1 < nodes.len() {
        return nodes[i + 1];
    }
    nodes[0]
}

/// Why each step of a cycle is one: from each of its nodes to the next, and from the last to the
/// first. Where there is more than one reason it is a write's, else a read's.
///
/// It looks through all versions and reads at each step. `AllocError` where there was no room.
pub fn dependencies(
    alloc: Global,
    recorded: &Recorded,
    nodes: &[u32],
) -> Result<Vec<Dependency>, AllocError>
    requires recorded { IsRecorded recorded.now }
    requires cycle { IsCycleOf (history_of recorded.now) nodes.now }
    ensures { IfOk result (λ found. AreDependencies (history_of recorded.now) nodes.now found.items) }
{
    let mut found = Vec::new(alloc);
    for i in 0..nodes.len() {
        let Some(step) = reason(recorded, nodes[i], next_of(nodes, i)) else {
            unreachable!()
        };
        found.push(step)?;
    }
    Ok(found)
}
