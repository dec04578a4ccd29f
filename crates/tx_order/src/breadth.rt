//! The search breadth first, for a cycle of fewer edges through a node.
ghost use Rattle.std.specs.Prelude.{◌≡◌, ◌≢◌, ◌+◌, ◌<◌, ◌≤◌, length, IfOk, IfSome, slice_index, All};
ghost use Rattle.tx_order.specs.declared.graph.Edge.{Edge};
ghost use Rattle.tx_order.specs.Graphs.{AreWithin, IsCycle};
ghost use Rattle.tx_order.specs.Search.{AreByFrom};

use crate::graph::Edge;
use crate::search::first_edge;
use std::alloc::{AllocError, Global};

// How many nodes are met from one start.
const MOST_MET: usize = 65_536;

/// What a search breadth first has met.
#[derive(Drop)]
pub(crate) struct Breadth {
    // of each node, the edge by which it was met
    by: Vec<Option<usize>>,
    // the nodes that were met, in turn
    met: Vec<u32>,
}

// Meets what the edges of a node lead to, or finds an edge back to the start.
fn visit(
    by: &mut [Option<usize>],
    met: &mut Vec<u32>,
    edges: &[Edge],
    node: u32,
    start: u32,
) -> Result<Option<usize>, AllocError>
    requires by_from { AreByFrom edges.now }
    requires nodes { AreWithin (length by.old) edges.now }
    requires met { All (λ v. v < length by.old) met.old.items }
    ensures met { All (λ v. v < length by.old) met.new.items }
{
    for e in first_edge(edges, node)..edges.len() {
        let edge = edges[e];
        if edge.from != node {
            break;
        }
        if edge.to == start {
            return Ok(Some(e));
        }
        if by[edge.to as usize].is_none() {
            by[edge.to as usize] = Some(e);
            met.push(edge.to)?;
        }
    }
    Ok(None)
}

// Meets nodes in turn until an edge leads back to the start.
fn meet_from(
    by: &mut [Option<usize>],
    met: &mut Vec<u32>,
    edges: &[Edge],
    start: u32,
) -> Result<Option<usize>, AllocError>
    requires by_from { AreByFrom edges.now }
    requires nodes { AreWithin (length by.old) edges.now }
    requires met { All (λ v. v < length by.old) met.old.items }
    ensures met { All (λ v. v < length by.old) met.new.items }
{
    for at in 0..MOST_MET {
        if at >= met.len() {
            break;
        }
        let node = met[at];
        if let Some(e) = visit(by, met, edges, node, start)? {
            return Ok(Some(e));
        }
    }
    Ok(None)
}

// Forgets what was met.
fn forget(by: &mut [Option<usize>], met: &mut Vec<u32>)
    requires { All (λ v. v < length by.old) met.old.items }
    ensures { length met.new.items ≡ 0 }
{
    for i in 0..met.len() {
        by[met[i] as usize] = None;
    }
    met.clear();
}

// The edges from the start to the one that leads back to it, by how each node was met.
fn trace(
    alloc: Global,
    by: &[Option<usize>],
    edges: &[Edge],
    start: u32,
    last: usize,
) -> Result<Vec<usize>, AllocError> {
    let mut steps = Vec::new(alloc);
    let mut step = last;
    for _ in 0..MOST_MET {
        steps.push(step)?;
        let Some(edge) = edges.get(step) else {
            break;
        };
        if edge.from == start {
            break;
        }
        let Some(Some(before)) = by.get(edge.from as usize) else {
            break;
        };
        step = *before;
    }
    steps.reverse();
    Ok(steps)
}

// The edge after one of these, round.
fn next_of(steps: &[usize], i: usize) -> usize
    requires { i < length steps.now }
    ensures next { i + 1 < length steps.now → result ≡ slice_index steps.now (i + 1) }
    ensures first { length steps.now ≤ i + 1 → result ≡ slice_index steps.now 0 }
{
    if i + 1 < steps.len() {
        return steps[i + 1];
    }
    steps[0]
}

// The nodes from which these edges lead, where each leads to the next one's, and the last to the
// first one's.
fn nodes_round(
    alloc: Global,
    edges: &[Edge],
    steps: &[usize],
) -> Result<Option<Vec<u32>>, AllocError>
    ensures { IfOk result (λ found. IfSome found (λ nodes. length steps.now ≢ 0 → IsCycle edges.now nodes.items)) }
{
    let mut nodes = Vec::new(alloc);
    for i in 0..steps.len() {
        let step = steps[i];
        let next = next_of(steps, i);
        if step >= edges.len() || next >= edges.len() {
            return Ok(None);
        }
        let edge = edges[step];
        let after = edges[next];
        if edge.to != after.from {
            return Ok(None);
        }
        nodes.push(edge.from)?;
    }
    Ok(Some(nodes))
}

impl Breadth {
    /// Nothing is met yet.
    pub(crate) fn new(alloc: Global, nodes: u32) -> Result<Breadth, AllocError>
        ensures { IfOk result (λ breadth. (length breadth.by.items ≡ nodes) × (length breadth.met.items ≡ 0)) }
    {
        Ok(Breadth {
            by: vec![in alloc; None; nodes as usize]?,
            met: Vec::new(alloc),
        })
    }

    /// A cycle through a node, of as few edges as it finds.
    pub(crate) fn cycle_through(
        &mut self,
        alloc: Global,
        edges: &[Edge],
        start: u32,
    ) -> Result<Option<Vec<u32>>, AllocError>
        requires by_from { AreByFrom edges.now }
        requires nodes { AreWithin (length self.old.by.items) edges.now }
        requires empty { length self.old.met.items ≡ 0 }
        requires start { start < length self.old.by.items }
        ensures same { IfOk result (λ found. (length self.new.by.items ≡ length self.old.by.items)
            × (length self.new.met.items ≡ 0)) }
        ensures cycle { IfOk result (λ found. IfSome found (λ nodes. IsCycle edges.now nodes.items)) }
    {
        self.met.push(start)?;
        let found = meet_from(self.by.as_mut_slice(), &mut self.met, edges, start)?;
        let Some(last) = found else {
            forget(self.by.as_mut_slice(), &mut self.met);
            return Ok(None);
        };
        let steps = trace(alloc, self.by.as_slice(), edges, start, last)?;
        forget(self.by.as_mut_slice(), &mut self.met);
        if steps.is_empty() {
            return Ok(None);
        }
        nodes_round(alloc, edges, steps.as_slice())
    }
}
