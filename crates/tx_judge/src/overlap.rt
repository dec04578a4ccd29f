//! Two that put into one key do not overlap: so where one is known to start before the other
//! commits, it commits before the other starts.

use std::alloc::{AllocError, Global};
use tx_chains::{Extras, Put, number};
use tx_order::Edge;
use tx_web::Lists;

// How many puts of a transaction are looked at.
const MOST_PUTS: usize = 16;

/// The puts of each transaction into keys of which nobody knows the order.
pub(crate) fn puts_by_txn(
    alloc: Global,
    puts: &[Put],
    extras: &Extras,
    txns: u32,
) -> Result<Lists, AllocError> {
    let mut by_txn = Lists::new(alloc, txns as usize, puts.len())?;
    for i in 0..puts.len() {
        if extras.is_open(puts[i].key) {
            by_txn.push(puts[i].txn as usize, number(i));
        }
    }
    Ok(by_txn)
}

/// The key of the put at a place.
pub(crate) fn key_at(puts: &[Put], place: u32) -> Option<u32> {
    let put = puts.get(place as usize)?;
    Some(put.key)
}

// Whether one of the first puts of a transaction is into the key.
fn puts_into(by_txn: &Lists, puts: &[Put], txn: u32, key: u32) -> bool {
    let mut at = by_txn.first(txn as usize);
    for _ in 0..MOST_PUTS {
        let Some(place) = at else {
            return false;
        };
        if key_at(puts, place) == Some(key) {
            return true;
        }
        at = by_txn.next(place);
    }
    false
}

// Whether two transactions put into one key, by their first puts.
fn share_key(by_txn: &Lists, puts: &[Put], one: u32, other: u32) -> bool {
    let mut at = by_txn.first(one as usize);
    for _ in 0..MOST_PUTS {
        let Some(place) = at else {
            return false;
        };
        if let Some(key) = key_at(puts, place) {
            if puts_into(by_txn, puts, other, key) {
                return true;
            }
        }
        at = by_txn.next(place);
    }
    false
}

// The edge from the commit of one to the start of another, where an edge leads from the start of
// the one to the commit of the other, and both put into one key.
fn apart(by_txn: &Lists, puts: &[Put], txns: u32, edge: Edge) -> Option<Edge> {
    let one = edge.from / 2;
    let other = edge.to / 2;
    if edge.from % 2 == 1 || edge.to % 2 == 0 || one == other {
        return None;
    }
    if one >= txns || other >= txns || !share_key(by_txn, puts, one, other) {
        return None;
    }
    Some(Edge {
        from: number(2 * one as usize + 1),
        to: number(2 * other as usize),
    })
}

/// Adds of each edge from the start of one to the commit of another, which put into one key, that
/// the one commits before the other starts.
pub(crate) fn add_apart(
    edges: &mut Vec<Edge>,
    by_txn: &Lists,
    puts: &[Put],
    txns: u32,
) -> Result<(), AllocError> {
    for i in 0..edges.len() {
        let Some(edge) = edges.get(i) else {
            return Ok(());
        };
        if let Some(more) = apart(by_txn, puts, txns, *edge) {
            edges.push(more)?;
        }
    }
    Ok(())
}
