//! The graph of versions of which the order is not known in some keys, with what holds in each of
//! their orders.
ghost use Rattle.std.specs.Prelude.{◌↔◌, IsTrue};
ghost use Rattle.tx_order.specs.Graphs.{AreWithin};
ghost use Rattle.tx_history.specs.Records.{IsRecorded};

use std::alloc::{AllocError, Global};
use tx_chains::{ChainPlan, Extras, Put, first_put, last_put, number};
use tx_history::{Read, Recorded, edges};
use tx_order::Edge;

// Adds an edge from one node to another.
fn add(edges: &mut Vec<Edge>, from: usize, to: usize) -> Result<(), AllocError> {
    edges.push(Edge {
        from: number(from),
        to: number(to),
    })?;
    Ok(())
}

// The node of a key, behind those of so many transactions.
fn node_of(txns: u32, key: u32) -> usize {
    2 * txns as usize + key as usize
}

// Adds that a put comes behind the last version that is known of its key: it started when that had
// been committed, and committed when those had started who saw that.
fn add_behind(
    edges: &mut Vec<Edge>,
    txns: u32,
    last: Option<Put>,
    put: Put,
) -> Result<(), AllocError> {
    let txn = put.txn as usize;
    add(edges, node_of(txns, put.key), 2 * txn + 1)?;
    if let Some(last) = last {
        add(edges, 2 * last.txn as usize + 1, 2 * txn)?;
    }
    Ok(())
}

// Adds that of each chain that nobody knows the place of.
fn add_chains(
    edges: &mut Vec<Edge>,
    txns: u32,
    plan: &ChainPlan,
    puts: &[Put],
    extras: &Extras,
    keys: u32,
) -> Result<(), AllocError> {
    for chain in keys as usize..plan.names.len() {
        let Some(put) = first_put(plan, puts, chain) else {
            continue;
        };
        if extras.is_open(put.key) {
            let last = last_put(plan, puts, put.key as usize);
            add_behind(edges, txns, last, put)?;
        }
    }
    Ok(())
}

// Whether a read is of the last version that is known of a key.
fn is_last(recorded: &Recorded, extras: &Extras, read: Read) -> bool
    requires { IsRecorded recorded.now }
{
    if !extras.is_open(read.key) {
        return false;
    }
    read.version as usize == recorded.writers_of(read.key as usize).len()
}

// Adds of those reads that the reader had started before those committed who put something behind.
fn add_readers(
    edges: &mut Vec<Edge>,
    recorded: &Recorded,
    extras: &Extras,
) -> Result<(), AllocError>
    requires { IsRecorded recorded.now }
{
    for i in 0..recorded.reads.len() {
        let read = recorded.reads[i];
        if is_last(recorded, extras, read) {
            let node = node_of(recorded.txns, read.key);
            add(edges, 2 * read.txn as usize, node)?;
        }
    }
    Ok(())
}

/// The graph of a history of these chains, those of the keys first, and what holds in each order of
/// the others. Behind the nodes of its transactions it has one for each key, between those who saw
/// the last version that is known and those who put something behind it.
pub(crate) fn wide_edges(
    alloc: Global,
    recorded: &Recorded,
    plan: &ChainPlan,
    puts: &[Put],
    extras: &Extras,
    keys: u32,
) -> Result<Vec<Edge>, AllocError>
    requires { IsRecorded recorded.now }
{
    let mut wide = edges(alloc, recorded)?;
    add_chains(&mut wide, recorded.txns, plan, puts, extras, keys)?;
    add_readers(&mut wide, recorded, extras)?;
    Ok(wide)
}

/// Whether each edge joins two of so many nodes.
pub(crate) fn are_within(edges: &[Edge], nodes: u32) -> bool
    ensures { IsTrue result ↔ AreWithin nodes edges.now }
{
    for i in 0..edges.len() {
        if edges[i].from >= nodes || edges[i].to >= nodes {
            return false;
        }
    }
    true
}
