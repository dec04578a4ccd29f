//! What follows from orders that are found, each as the opposite one would close a cycle: a
//! refutation, or an order in which all may be kept.
ghost use Rattle.tx_history.specs.Records.{IsRecorded};

use crate::greedy::order_of;
use crate::overlap::puts_by_txn;
use std::alloc::{AllocError, Global};
use tx_chains::{Extras, Put, number, put_at};
use tx_order::Edge;
use tx_recording::Recording;
use tx_search::{Sought, refutation_of, search};
use tx_verdict::{Level, Refutation, Versions};
use tx_web::{Finds, Lists, Paths, Web, groups_of, loose_chains, taken_of, web_of};

// How many times orders are looked for in the graph with those that were found.
const MOST_ROUNDS: usize = 64;

/// What follows from orders that are found.
#[derive(Drop)]
pub(crate) enum Follows {
    /// No order of all.
    Refuted(Refutation),
    /// Orders in which it may be kept, each by numbers of the transactions.
    Guesses(Vec<Vec<usize>>),
    Nothing,
}

// The transactions' places in the order in which they ended, else in that of the lines.
fn ranks_by_end(alloc: Global, recording: &Recording) -> Result<Vec<u32>, AllocError> {
    let mut by_end = Vec::new(alloc);
    for txn in 0..recording.transactions.len() {
        let ended = recording.transactions[txn].ended.unwrap_or(0);
        by_end.push((ended, number(txn)))?;
    }
    by_end.sort()?;
    let mut ranks = vec![in alloc; 0u32; recording.transactions.len()]?;
    for i in 0..by_end.len() {
        let (_, txn) = by_end[i];
        put_at(ranks.as_mut_slice(), txn as usize, number(i));
    }
    Ok(ranks)
}

// The edges of a graph.
fn edges_of(alloc: Global, web: &Web) -> Result<Vec<Edge>, AllocError> {
    let mut edges = Vec::new(alloc);
    for i in 0..web.links.len() {
        if let Some(link) = web.links.get(i) {
            edges.push(Edge {
                from: link.from,
                to: link.to,
            })?;
        }
    }
    Ok(edges)
}

// What is looked for in a graph in which some orders were found.
#[derive(Drop)]
struct Asked<'a> {
    recording: &'a Recording,
    versions: &'a Versions,
    finds: &'a Finds<'a>,
    by_node: &'a Lists,
    groups: &'a [(usize, usize)],
    puts: &'a [Put],
    extras: &'a Extras,
    budget: u32,
}

// Orders in which a graph may be kept, or its refutation.
fn sought_of(alloc: Global, asked: &Asked<'_>) -> Result<Follows, AllocError>
    requires { IsRecorded asked.now.versions.now.recorded }
{
    let web = &asked.finds.web;
    let edges = edges_of(alloc, web)?;
    let edges = edges.as_slice();
    let by_txn = puts_by_txn(alloc, asked.puts, asked.extras, web.txns)?;
    let by_end = ranks_by_end(alloc, asked.recording)?;
    let keys = asked.recording.keys;
    let starts = by_end.as_slice();
    let (puts, nodes) = (asked.puts, web.nodes);
    let first = order_of(alloc, edges, nodes, puts, &by_txn, web.txns, keys, starts)?;
    let txns = number(asked.recording.transactions.len());
    let sought = search(
        alloc,
        asked.finds,
        asked.versions,
        txns,
        asked.by_node,
        asked.groups,
        first.order.as_slice(),
        asked.budget,
    )?;
    let mut guesses = Vec::new(alloc);
    match sought {
        Sought::Refuted(refutation) => return Ok(Follows::Refuted(refutation)),
        Sought::Order(numbers) => guesses.push(numbers)?,
        Sought::Spent => {}
        Sought::Nothing => {}
    }
    guesses.push(first.ranks)?;
    let last = order_of(alloc, edges, nodes, puts, &by_txn, web.txns, keys, &[])?;
    guesses.push(last.ranks)?;
    Ok(Follows::Guesses(guesses))
}

// The refutation of a graph of which not all nodes can be taken.
fn refuted(
    alloc: Global,
    recording: &Recording,
    versions: &Versions,
    finds: &Finds<'_>,
    left: &[u32],
) -> Result<Follows, AllocError>
    requires { IsRecorded versions.now.recorded }
{
    let by_node = finds.web.by_node(alloc)?;
    let paths = Paths {
        web: &finds.web,
        by_node: &by_node,
        below: 0xffff_ffff,
    };
    let Some(cycle) = paths.cycle(alloc, left)? else {
        return Ok(Follows::Nothing);
    };
    let txns = number(recording.transactions.len());
    match refutation_of(alloc, finds, versions, txns, &by_node, cycle.as_slice())? {
        Some(refutation) => Ok(Follows::Refuted(refutation)),
        None => Ok(Follows::Nothing),
    }
}

/// What follows from orders that are found, for the versions of a plan in which each put that
/// nobody knows the place of has a chain of its own, without what only a serial execution asks of
/// them. A search meets at most as many cycles as the budget.
///
/// `AllocError` where there was no room.
pub(crate) fn follows_from(
    alloc: Global,
    recording: &Recording,
    level: Level,
    views: usize,
    versions: &Versions,
    puts: &[Put],
    extras: &Extras,
    budget: u32,
) -> Result<Follows, AllocError> {
    if !extras.are_open() || !versions.recorded.is_history() {
        return Ok(Follows::Nothing);
    }
    let loose = loose_chains(alloc, versions, extras, recording.keys)?;
    let groups = groups_of(alloc, loose.as_slice())?;
    let mut finds = Finds {
        web: web_of(alloc, level, versions, views, loose.as_slice())?,
        loose: loose.as_slice(),
        found: Vec::new(alloc),
    };
    for _ in 0..MOST_ROUNDS {
        let by_node = finds.web.by_node(alloc)?;
        let taken = taken_of(alloc, &finds.web, &by_node)?;
        if taken.order.len() < finds.web.nodes as usize {
            return refuted(alloc, recording, versions, &finds, taken.left.as_slice());
        }
        let order = taken.order.as_slice();
        if !finds.add_round(alloc, &by_node, order, groups.as_slice())? {
            break;
        }
    }
    let by_node = finds.web.by_node(alloc)?;
    let asked = Asked {
        recording,
        versions,
        finds: &finds,
        by_node: &by_node,
        groups: groups.as_slice(),
        puts,
        extras,
        budget,
    };
    sought_of(alloc, &asked)
}
