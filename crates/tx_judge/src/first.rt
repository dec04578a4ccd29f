//! Which puts come first of those that nobody knows the place of.

use crate::greedy::order_of;
use crate::overlap::{add_apart, puts_by_txn};
use crate::wide_graph::{are_within, wide_edges};
use std::alloc::{AllocError, Global};
use tx_chains::{ChainPlan, Extras, Put, first_member, first_put, last_put, number, put_at};
use tx_order::{Edge, Unordered, order};
use tx_verdict::Versions;

// The places of so many nodes in an order of a graph, or these where it has none.
fn places_in(
    alloc: Global,
    nodes: u32,
    edges: &mut Vec<Edge>,
    places: Vec<usize>,
) -> Result<Vec<usize>, AllocError> {
    if !are_within(edges.as_slice(), nodes) {
        return Ok(places);
    }
    match order(alloc, nodes, edges) {
        Ok(better) => Ok(better),
        Err(Unordered::Cycle(_)) => Ok(places),
        Err(Unordered::Memory) => Err(AllocError),
    }
}

/// What follows from all that holds in each order of the puts that nobody knows the place of.
#[derive(Drop)]
pub(crate) enum Hint {
    /// A cycle, also where only these puts have a place, by key: each behind all that is known.
    First(Vec<Option<u32>>),
    /// Orders in which it may be kept, each by numbers of the transactions.
    Guesses(Vec<Vec<usize>>),
    Nothing,
}

// Where a cycle leads.
#[derive(Drop)]
struct Leads {
    // by key: the transaction behind the key's node
    by_key: Vec<Option<u32>>,
    // by transaction: the one that starts behind its commit
    by_txn: Vec<Option<u32>>,
}

// Notes a step of a cycle, from one node to another, where the transactions have so many nodes.
fn note_step(leads: &mut Leads, nodes: usize, from: u32, to: u32) {
    let node = from as usize;
    if node >= nodes {
        put_at(leads.by_key.as_mut_slice(), node - nodes, Some(to / 2));
        return;
    }
    if node % 2 == 1 {
        put_at(leads.by_txn.as_mut_slice(), node / 2, Some(to / 2));
    }
}

// Where a cycle of these nodes leads.
fn leads_of(alloc: Global, txns: u32, keys: u32, nodes: &[u32]) -> Result<Leads, AllocError> {
    let mut leads = Leads {
        by_key: vec![in alloc; None; keys as usize]?,
        by_txn: vec![in alloc; None; txns as usize]?,
    };
    for i in 0..nodes.len() {
        let next = if i + 1 < nodes.len() { i + 1 } else { 0 };
        note_step(&mut leads, 2 * txns as usize, nodes[i], nodes[next]);
    }
    Ok(leads)
}

// The number at a place of a table.
fn number_in(table: &[Option<u32>], place: usize) -> Option<u32> {
    let found = table.get(place)?;
    *found
}

// Whether a cycle leads to a put, past its key's node or from the last version that is known.
fn leads_to(leads: &Leads, last: Option<Put>, put: Put) -> bool {
    if let Some(txn) = number_in(leads.by_key.as_slice(), put.key as usize) {
        return txn == put.txn;
    }
    let Some(last) = last else {
        return false;
    };
    number_in(leads.by_txn.as_slice(), last.txn as usize) == Some(put.txn)
}

// By key, the put that a cycle leads to, of those that nobody knows the place of.
fn first_by(
    alloc: Global,
    plan: &ChainPlan,
    puts: &[Put],
    keys: u32,
    leads: &Leads,
) -> Result<Vec<Option<u32>>, AllocError> {
    let mut first = vec![in alloc; None; keys as usize]?;
    for chain in keys as usize..plan.names.len() {
        let Some(member) = first_member(plan, chain) else {
            continue;
        };
        let Some(put) = first_put(plan, puts, chain) else {
            continue;
        };
        if leads_to(leads, last_put(plan, puts, put.key as usize), put) {
            put_at(first.as_mut_slice(), put.key as usize, Some(member.put));
        }
    }
    Ok(first)
}

// Every other one of the first twice so many numbers.
fn every_other(
    alloc: Global,
    numbers: &[usize],
    first: u32,
    count: u32,
) -> Result<Vec<usize>, AllocError> {
    let mut taken = Vec::new(alloc);
    for i in 0..count as usize {
        let number = match numbers.get(2 * i + first as usize) {
            Some(number) => *number,
            None => 0,
        };
        taken.push(number)?;
    }
    Ok(taken)
}

/// What follows from all that holds in each order of the puts that nobody knows the place of, for
/// the versions of a plan in which each of them has a chain of its own.
///
/// `AllocError` where there was no room.
pub(crate) fn hint_of(
    alloc: Global,
    versions: &Versions,
    plan: &ChainPlan,
    puts: &[Put],
    extras: &Extras,
    keys: u32,
) -> Result<Hint, AllocError> {
    if !extras.are_open() || !versions.recorded.is_history() {
        return Ok(Hint::Nothing);
    }
    let txns = versions.recorded.txns;
    let nodes = number(2 * txns as usize + keys as usize);
    let mut wide = wide_edges(alloc, &versions.recorded, plan, puts, extras, keys)?;
    if !are_within(wide.as_slice(), nodes) {
        return Ok(Hint::Nothing);
    }
    match order(alloc, nodes, &mut wide) {
        Ok(places) => {
            let by_txn = puts_by_txn(alloc, puts, extras, txns)?;
            add_apart(&mut wide, &by_txn, puts, txns)?;
            let places = places_in(alloc, nodes, &mut wide, places)?;
            let edges = wide.as_slice();
            let found = order_of(alloc, edges, nodes, puts, &by_txn, txns, keys, &[])?;
            let mut guesses = Vec::new(alloc);
            guesses.push(found.ranks)?;
            guesses.push(every_other(alloc, places.as_slice(), 1, txns)?)?;
            guesses.push(every_other(alloc, places.as_slice(), 0, txns)?)?;
            Ok(Hint::Guesses(guesses))
        }
        Err(Unordered::Cycle(cycle)) => {
            let leads = leads_of(alloc, txns, keys, cycle.as_slice())?;
            Ok(Hint::First(first_by(alloc, plan, puts, keys, &leads)?))
        }
        Err(Unordered::Memory) => Err(AllocError),
    }
}
