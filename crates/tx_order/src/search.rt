//! The search depth first: the nodes on the path from where it began, and a mark of each node.
ghost use Rattle.std.specs.Prelude.{◌≡◌, ◌≢◌, ℕ, ◌+◌, ◌-◌, ◌<◌, ◌≤◌, length, Contains, None, Some, OnOk, IfOk, IfSome, IfNone, [], replicate, map, drop};
ghost use Rattle.tx_order.specs.declared.search.Frame.{Frame};
ghost use Rattle.tx_order.specs.Graphs.{AreWithin};
ghost use Rattle.tx_order.specs.Search.{AreByFrom, edge_at, mark_of, node_at, top_of, IsSearch, StaysMet, steps_left, place_in};

use crate::graph::Edge;
use std::alloc::{AllocError, Global};

/// How far the search has come with a node.
#[derive(Clone, Copy)]
pub(crate) enum Mark {
    /// It has not met it.
    Unseen,
    /// It is on the path, here.
    Open(usize),
    /// It is finished, after so many others.
    Done(usize),
}

/// A node on the path, and the first of its edges that was not passed.
#[derive(Clone, Copy)]
pub(crate) struct Frame {
    node: u32,
    next: usize,
}

/// How far a search has come.
#[derive(Drop)]
pub(crate) struct Search {
    marks: Vec<Mark>,
    path: Vec<Frame>,
    done: usize,
}

/// The first edge from a node, or from one above it.
pub(crate) fn first_edge(edges: &[Edge], node: u32) -> usize
    requires { AreByFrom edges.now }
    ensures within { result ≤ length edges.now }
    ensures before { (e : ℕ) → e < result → (edge_at edges.now e).from < node }
    ensures ahead { (e : ℕ) → result ≤ e → e < length edges.now → node ≤ (edge_at edges.now e).from }
{
    edges.partition_point(|edge| edge.from < node)
}

impl Search {
    // Goes to a node that it has not met.
    fn enter(&mut self, edges: &[Edge], node: u32) -> Result<(), AllocError>
        requires by_from { AreByFrom edges.now }
        requires search { IsSearch edges.now self.old.marks.items self.old.path.items self.old.done }
        requires within { node < length self.old.marks.items }
        requires unseen { mark_of self.old.marks.items node ≡ Mark.Unseen }
        requires linked { length self.old.path.items ≢ 0
            → Contains edges.now record { from = (top_of self.old.path.items).node; to = node } }
        ensures search { OnOk result (IsSearch edges.now self.new.marks.items self.new.path.items self.new.done) }
        ensures met { OnOk result (StaysMet self.old.marks.items self.new.marks.items) }
        ensures seen { OnOk result (mark_of self.new.marks.items node ≢ Mark.Unseen) }
        ensures smaller { OnOk result (steps_left edges.now self.new.marks.items self.new.path.items
            < steps_left edges.now self.old.marks.items self.old.path.items) }
    {
        let next = first_edge(edges, node);
        self.marks[node as usize] = Mark::Open(self.path.len());
        self.path.push(Frame { node, next })?;
        Ok(())
    }

    // Passes an edge of the last node on the path, which leads to a finished one.
    fn pass(&mut self, edges: &[Edge])
        requires search { IsSearch edges.now self.old.marks.items self.old.path.items self.old.done }
        requires some { length self.old.path.items ≢ 0 }
        requires within { (top_of self.old.path.items).next < length edges.now }
        requires ended { (f : ℕ)
            × (mark_of self.old.marks.items (edge_at edges.now (top_of self.old.path.items).next).to ≡ Mark.Done f) }
        ensures search { IsSearch edges.now self.new.marks.items self.new.path.items self.new.done }
        ensures met { StaysMet self.old.marks.items self.new.marks.items }
        ensures smaller { steps_left edges.now self.new.marks.items self.new.path.items
            < steps_left edges.now self.old.marks.items self.old.path.items }
    {
        let last = self.path.len() - 1;
        self.path[last].next += 1;
    }

    // Finishes the last node on the path, all of whose edges were passed.
    fn leave(&mut self, edges: &[Edge])
        requires search { IsSearch edges.now self.old.marks.items self.old.path.items self.old.done }
        requires some { length self.old.path.items ≢ 0 }
        requires ended { (e : ℕ) → (top_of self.old.path.items).next ≤ e → e < length edges.now
            → (edge_at edges.now e).from ≢ (top_of self.old.path.items).node }
        ensures search { IsSearch edges.now self.new.marks.items self.new.path.items self.new.done }
        ensures met { StaysMet self.old.marks.items self.new.marks.items }
        ensures smaller { steps_left edges.now self.new.marks.items self.new.path.items
            < steps_left edges.now self.old.marks.items self.old.path.items }
    {
        if let Some(frame) = self.path.pop() {
            self.marks[frame.node as usize] = Mark::Done(self.done);
            self.done += 1;
        }
    }

    // Where the next edge of the last node on the path leads, if one is left.
    fn next_node(&self, edges: &[Edge]) -> Option<u32>
        requires by_from { AreByFrom edges.now }
        requires search { IsSearch edges.now self.now.marks.items self.now.path.items self.now.done }
        requires some { length self.now.path.items ≢ 0 }
        ensures next { IfSome result (λ to. ((top_of self.now.path.items).next < length edges.now)
            × (edge_at edges.now (top_of self.now.path.items).next
            ≡ record { from = (top_of self.now.path.items).node; to = to })) }
        ensures none { IfNone result ((e : ℕ) → (top_of self.now.path.items).next ≤ e → e < length edges.now
            → (edge_at edges.now e).from ≢ (top_of self.now.path.items).node) }
    {
        let top = self.path[self.path.len() - 1];
        let edge = edges.get(top.next)?;
        if edge.from == top.node {
            Some(edge.to)
        } else {
            None
        }
    }

    // Makes one step, or gives where on the path an edge of its last node leads.
    fn step(&mut self, edges: &[Edge]) -> Result<Option<usize>, AllocError>
        requires by_from { AreByFrom edges.now }
        requires nodes { AreWithin (length self.old.marks.items) edges.now }
        requires search { IsSearch edges.now self.old.marks.items self.old.path.items self.old.done }
        requires some { length self.old.path.items ≢ 0 }
        ensures search { OnOk result (IsSearch edges.now self.new.marks.items self.new.path.items self.new.done) }
        ensures met { OnOk result (StaysMet self.old.marks.items self.new.marks.items) }
        ensures smaller { IfOk result (λ back. back ≡ None
            → steps_left edges.now self.new.marks.items self.new.path.items
            < steps_left edges.now self.old.marks.items self.old.path.items) }
        ensures back { IfOk result (λ back. (p : ℕ) → back ≡ Some p → (p < length self.new.path.items)
            × Contains edges.now record {
              from = (top_of self.new.path.items).node;
              to = node_at self.new.path.items p;
            }) }
    {
        let Some(to) = self.next_node(edges) else {
            self.leave(edges);
            return Ok(None);
        };
        match self.marks[to as usize] {
            Mark::Unseen => self.enter(edges, to)?,
            Mark::Done(_) => self.pass(edges),
            Mark::Open(place) => return Ok(Some(place)),
        }
        Ok(None)
    }

    // Makes steps until nothing is on the path, or gives where on it an edge of its last node
    // leads.
    fn finish(&mut self, edges: &[Edge]) -> Result<Option<usize>, AllocError>
        requires by_from { AreByFrom edges.now }
        requires nodes { AreWithin (length self.old.marks.items) edges.now }
        requires search { IsSearch edges.now self.old.marks.items self.old.path.items self.old.done }
        ensures search { OnOk result (IsSearch edges.now self.new.marks.items self.new.path.items self.new.done) }
        ensures met { OnOk result (StaysMet self.old.marks.items self.new.marks.items) }
        ensures ended { IfOk result (λ back. back ≡ None → length self.new.path.items ≡ 0) }
        ensures back { IfOk result (λ back. (p : ℕ) → back ≡ Some p → (p < length self.new.path.items)
            × Contains edges.now record {
              from = (top_of self.new.path.items).node;
              to = node_at self.new.path.items p;
            }) }
    {
        'steps: while !self.path.is_empty() {
            if let Some(place) = self.step(edges)? {
                return Ok(Some(place));
            }
        }
        Ok(None)
    }

    /// Nothing is met yet.
    pub(crate) fn new(alloc: Global, nodes: u32) -> Result<Search, AllocError>
        ensures { IfOk result (λ search. (search.marks.items ≡ replicate nodes Mark.Unseen)
            × (search.path.items ≡ []) × (search.done ≡ 0)) }
    {
        let marks = vec![in alloc; Mark::Unseen; nodes as usize]?;
        Ok(Search {
            marks,
            path: Vec::new(alloc),
            done: 0,
        })
    }

    // Meets a node and finishes it, or gives where on the path an edge of its last node leads.
    fn meet(&mut self, edges: &[Edge], node: u32) -> Result<Option<usize>, AllocError>
        requires by_from { AreByFrom edges.now }
        requires nodes { AreWithin (length self.old.marks.items) edges.now }
        requires search { IsSearch edges.now self.old.marks.items self.old.path.items self.old.done }
        requires empty { length self.old.path.items ≡ 0 }
        requires within { node < length self.old.marks.items }
        ensures search { OnOk result (IsSearch edges.now self.new.marks.items self.new.path.items self.new.done) }
        ensures met { OnOk result (StaysMet self.old.marks.items self.new.marks.items) }
        ensures seen { OnOk result (mark_of self.new.marks.items node ≢ Mark.Unseen) }
        ensures ended { IfOk result (λ back. back ≡ None → length self.new.path.items ≡ 0) }
        ensures back { IfOk result (λ back. (p : ℕ) → back ≡ Some p → (p < length self.new.path.items)
            × Contains edges.now record {
              from = (top_of self.new.path.items).node;
              to = node_at self.new.path.items p;
            }) }
    {
        if let Mark::Unseen = self.marks[node as usize] {
            self.enter(edges, node)?;
            return self.finish(edges);
        }
        Ok(None)
    }

    /// Meets all nodes, and finishes them, or gives where on the path an edge of its last node
    /// leads.
    pub(crate) fn meet_all(
        &mut self,
        edges: &[Edge],
        nodes: u32,
    ) -> Result<Option<usize>, AllocError>
        requires by_from { AreByFrom edges.now }
        requires nodes { AreWithin nodes edges.now }
        requires search { IsSearch edges.now self.old.marks.items self.old.path.items self.old.done }
        requires empty { length self.old.path.items ≡ 0 }
        requires all { length self.old.marks.items ≡ nodes }
        ensures search { OnOk result (IsSearch edges.now self.new.marks.items self.new.path.items self.new.done) }
        ensures all { OnOk result (length self.new.marks.items ≡ nodes) }
        ensures ended { IfOk result (λ back. back ≡ None → (v : ℕ) → v < nodes
            → (f : ℕ) × (mark_of self.new.marks.items v ≡ Mark.Done f)) }
        ensures back { IfOk result (λ back. (p : ℕ) → back ≡ Some p → (p < length self.new.path.items)
            × Contains edges.now record {
              from = (top_of self.new.path.items).node;
              to = node_at self.new.path.items p;
            }) }
    {
        for node in 0..nodes {
            if let Some(place) = self.meet(edges, node)? {
                return Ok(Some(place));
            }
        }
        Ok(None)
    }

    /// The nodes of the path from a place on.
    pub(crate) fn path_from(&self, alloc: Global, place: usize) -> Result<Vec<u32>, AllocError>
        requires { place < length self.now.path.items }
        ensures { IfOk result (λ nodes. nodes.items ≡ map (λ (f : Frame). f.node) (drop place self.now.path.items)) }
    {
        self.path[place..]
            .iter()
            .map(|frame| frame.node)
            .collect(alloc)
    }

    /// The places of the nodes, once all are finished.
    pub(crate) fn places(&self, alloc: Global) -> Result<Vec<usize>, AllocError>
        ensures { IfOk result (λ places. places.items ≡ map (place_in self.now.done) self.now.marks.items) }
    {
        let done = self.done;
        self.marks
            .iter()
            .map(|mark| place_of(*mark, done))
            .collect(alloc)
    }
}

// A place that falls from what was finished first to what was finished last.
fn place_of(mark: Mark, done: usize) -> usize
    ensures { result ≡ place_in done mark }
{
    match mark {
        Mark::Done(before) => done.saturating_sub(before),
        Mark::Unseen | Mark::Open(_) => 0,
    }
}
