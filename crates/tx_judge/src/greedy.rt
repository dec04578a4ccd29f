//! An order in which of two that put into a key, of which nobody knows the order, one has committed
//! when the other starts.

use crate::overlap::key_at;
use std::alloc::{AllocError, Global};
use std::collections::BinaryHeap;
use tx_chains::{Put, number, put_at};
use tx_order::Edge;
use tx_web::Lists;

// How many of those that wait for a key are looked at when it is free.
const MOST_WOKEN: usize = 64;

// How many keys for which none waits are passed over in all, where all that may start wait.
const MOST_PASSED: usize = 0x100_0000;

// A graph, and the puts into keys of which nobody knows the order.
#[derive(Drop)]
struct Graph<'a> {
    txns: u32,
    edges: &'a [Edge],
    // the edges of each node
    by_node: Lists,
    puts: &'a [Put],
    // those puts of each transaction
    by_txn: &'a Lists,
}

// The transactions that may start: the one that was added last comes first, or where there are
// ranks the one of least rank, and moments of the clock before all.
#[derive(Drop)]
struct Starts<'a> {
    // by transaction, none where the last comes first
    ranks: &'a [u32],
    heap: BinaryHeap<u64>,
    added: u32,
}

impl Starts<'_> {
    fn push(&mut self, txn: u32) -> Result<(), AllocError> {
        self.added = self.added.saturating_add(1);
        let rank = match self.ranks.get(txn as usize) {
            Some(rank) => 0xffff_fffe - (*rank).min(0xffff_fffe),
            None if self.ranks.is_empty() => self.added,
            None => 0xffff_ffff,
        };
        self.heap
            .push(u64::from(rank) * 0x1_0000_0000 + u64::from(txn))?;
        Ok(())
    }

    fn pop(&mut self) -> Option<u32> {
        let top = self.heap.pop()?;
        Some((top % 0x1_0000_0000) as u32)
    }
}

// What is taken of a graph, a node after all that its edges come from.
#[derive(Drop)]
struct Taken<'a> {
    // by node: how many edges lead to it from nodes that are not taken
    left: Vec<u32>,
    // what may be taken, but starts
    ready: Vec<u32>,
    starts: Starts<'a>,
    // by key: whether one that puts into it has started, and not committed
    held: Vec<bool>,
    // by key: the transactions that wait for it
    waiting: Lists,
    // the key of which one that waits was forced last
    forced: usize,
    // how many keys for which none waits may be passed over
    tries: usize,
    // by transaction: how many nodes were taken before its commit
    ranks: Vec<usize>,
    // what was taken
    order: Vec<u32>,
}

// The edges of each of so many nodes.
fn edges_by_node(alloc: Global, edges: &[Edge], nodes: u32) -> Result<Lists, AllocError> {
    let mut by_node = Lists::new(alloc, nodes as usize, edges.len())?;
    for i in 0..edges.len() {
        by_node.push(edges[i].from as usize, number(i));
    }
    Ok(by_node)
}

// By node, how many edges lead to it.
fn count_edges(alloc: Global, edges: &[Edge], nodes: u32) -> Result<Vec<u32>, AllocError> {
    let mut left = vec![in alloc; 0u32; nodes as usize]?;
    for i in 0..edges.len() {
        let node = edges[i].to as usize;
        if let Some(count) = left.get(node) {
            let more = count.saturating_add(1);
            put_at(left.as_mut_slice(), node, more);
        }
    }
    Ok(left)
}

impl Graph<'_> {
    // The transaction of a node that is a start.
    fn start_of(&self, node: u32) -> Option<u32> {
        if node % 2 == 0 && node / 2 < self.txns {
            Some(node / 2)
        } else {
            None
        }
    }

    // The transaction of a node that is a commit.
    fn commit_of(&self, node: u32) -> Option<u32> {
        if node % 2 == 1 && node / 2 < self.txns {
            Some(node / 2)
        } else {
            None
        }
    }

    // A key that a transaction puts into, and another one holds.
    fn held_by(&self, held: &[bool], txn: u32) -> Option<u32> {
        let mut at = self.by_txn.first(txn as usize);
        for _ in 0..self.puts.len() {
            let place = at?;
            let key = key_at(self.puts, place)?;
            if held.get(key as usize) == Some(&true) {
                return Some(key);
            }
            at = self.by_txn.next(place);
        }
        None
    }
}

impl<'a> Taken<'a> {
    // Nothing is taken yet.
    fn new(
        alloc: Global,
        left: Vec<u32>,
        ranks: &'a [u32],
        txns: u32,
        keys: u32,
    ) -> Result<Taken<'a>, AllocError> {
        Ok(Taken {
            left,
            ready: Vec::new(alloc),
            starts: Starts {
                ranks,
                heap: BinaryHeap::new(alloc),
                added: 0,
            },
            held: vec![in alloc; false; keys as usize]?,
            waiting: Lists::new(alloc, keys as usize, txns as usize)?,
            forced: 0,
            tries: MOST_PASSED,
            ranks: vec![in alloc; 0; txns as usize]?,
            order: Vec::new(alloc),
        })
    }

    // Adds a node that may be taken.
    fn add(&mut self, graph: &Graph<'_>, node: u32) -> Result<(), AllocError> {
        match graph.start_of(node) {
            Some(txn) => self.starts.push(txn)?,
            None => self.ready.push(node)?,
        }
        Ok(())
    }

    // Adds the nodes that no edge leads to.
    fn add_first(&mut self, graph: &Graph<'_>) -> Result<(), AllocError> {
        for node in 0..self.left.len() {
            if self.left.get(node) == Some(&0) {
                self.add(graph, number(node))?;
            }
        }
        Ok(())
    }

    // Passes an edge to a node.
    fn pass(&mut self, graph: &Graph<'_>, node: u32) -> Result<(), AllocError> {
        let Some(count) = self.left.get(node as usize) else {
            return Ok(());
        };
        let left = count.saturating_sub(1);
        put_at(self.left.as_mut_slice(), node as usize, left);
        if left == 0 {
            self.add(graph, node)
        } else {
            Ok(())
        }
    }

    // Takes a node: passes each of its edges.
    fn leave(&mut self, graph: &Graph<'_>, node: u32) -> Result<(), AllocError> {
        self.order.push(node)?;
        let mut at = graph.by_node.first(node as usize);
        for _ in 0..graph.edges.len() {
            let Some(place) = at else {
                return Ok(());
            };
            if let Some(edge) = graph.edges.get(place as usize) {
                self.pass(graph, edge.to)?;
            }
            at = graph.by_node.next(place);
        }
        Ok(())
    }

    // Lets those that wait for a key try again.
    fn wake(&mut self, key: u32) -> Result<(), AllocError> {
        for _ in 0..MOST_WOKEN {
            match self.waiting.pop(key as usize) {
                Some(txn) => self.starts.push(txn)?,
                None => return Ok(()),
            }
        }
        Ok(())
    }

    // Holds the keys that a transaction puts into, or lets go of them.
    fn hold(&mut self, graph: &Graph<'_>, txn: u32, held: bool) -> Result<(), AllocError> {
        let mut at = graph.by_txn.first(txn as usize);
        for _ in 0..graph.puts.len() {
            let Some(place) = at else {
                return Ok(());
            };
            if let Some(key) = key_at(graph.puts, place) {
                put_at(self.held.as_mut_slice(), key as usize, held);
                if !held {
                    self.wake(key)?;
                }
            }
            at = graph.by_txn.next(place);
        }
        Ok(())
    }

    // Takes the start of a transaction, or has it wait for a key.
    fn start(&mut self, graph: &Graph<'_>, txn: u32) -> Result<(), AllocError> {
        if let Some(key) = graph.held_by(self.held.as_slice(), txn) {
            self.waiting.push(key as usize, txn);
            return Ok(());
        }
        self.hold(graph, txn, true)?;
        self.leave(graph, number(2 * txn as usize))
    }

    // Takes a node that is no start.
    fn take(&mut self, graph: &Graph<'_>, node: u32) -> Result<(), AllocError> {
        if let Some(txn) = graph.commit_of(node) {
            let taken = self.order.len();
            put_at(self.ranks.as_mut_slice(), txn as usize, taken);
            self.hold(graph, txn, false)?;
        }
        self.leave(graph, node)
    }

    // Lets one that waits for a key start all the same, where there is one.
    fn force(&mut self, graph: &Graph<'_>) -> Result<bool, AllocError> {
        for _ in 0..self.held.len().min(self.tries) {
            match self.waiting.pop(self.forced) {
                Some(txn) => {
                    self.hold(graph, txn, true)?;
                    self.leave(graph, number(2 * txn as usize))?;
                    return Ok(true);
                }
                None => {
                    self.tries = self.tries.saturating_sub(1);
                    self.forced = self.forced.saturating_add(1);
                    if self.forced >= self.held.len() {
                        self.forced = 0;
                    }
                }
            }
        }
        Ok(false)
    }

    // Takes one of the nodes that may be taken, a start only where there is no other, and one that
    // waits where there is none. Whether there was one.
    fn step(&mut self, graph: &Graph<'_>) -> Result<bool, AllocError> {
        if let Some(node) = self.ready.pop() {
            self.take(graph, node)?;
            return Ok(true);
        }
        if let Some(txn) = self.starts.pop() {
            self.start(graph, txn)?;
            return Ok(true);
        }
        self.force(graph)
    }
}

/// An order of the nodes of a graph.
#[derive(Drop)]
pub(crate) struct Ordered {
    /// By transaction, a number that rises in the order in which they commit.
    pub(crate) ranks: Vec<usize>,
    /// The nodes in this order, all where there is no cycle.
    pub(crate) order: Vec<u32>,
}

/// The order of the nodes if one after the other is taken as soon as it may be, and none starts
/// while another one holds one of its keys. Of those that may start the one of least rank does, or
/// the last where there are no ranks.
///
/// `AllocError` where there was no room.
pub(crate) fn order_of(
    alloc: Global,
    edges: &[Edge],
    nodes: u32,
    puts: &[Put],
    by_txn: &Lists,
    txns: u32,
    keys: u32,
    starts: &[u32],
) -> Result<Ordered, AllocError> {
    let graph = Graph {
        txns,
        edges,
        by_node: edges_by_node(alloc, edges, nodes)?,
        puts,
        by_txn,
    };
    let left = count_edges(alloc, edges, nodes)?;
    let mut taken = Taken::new(alloc, left, starts, txns, keys)?;
    taken.add_first(&graph)?;
    for _ in 0..u64::MAX {
        if !taken.step(&graph)? {
            break;
        }
    }
    Ok(Ordered {
        ranks: taken.ranks,
        order: taken.order,
    })
}
