//! Shortest ways and cycles of a graph.

use crate::lists::Lists;
use crate::reach::ChainOrder;
use crate::web::{Link, LinkReason, Loose, Web, commit_of, start_of};
use std::alloc::{AllocError, Global};
use tx_chains::{number, put_at};

// How many nodes of a cycle are tried for a shorter one.
const MOST_TRIED: usize = 16;

/// A graph by its nodes, in which some orders that were found may be used: those at places below a
/// number.
#[derive(Drop)]
pub struct Paths<'a> {
    pub web: &'a Web,
    pub by_node: &'a Lists,
    pub below: u32,
}

// A search breadth first.
#[derive(Drop)]
struct Search {
    // by node: the edge by which it was met
    by: Vec<Option<u32>>,
    met: Vec<u32>,
}

impl Search {
    // Meets a node by an edge, unless it has been met.
    fn meet(&mut self, node: u32, link: u32) -> Result<(), AllocError> {
        if self.has_met(node) || node as usize >= self.by.len() {
            return Ok(());
        }
        put_at(self.by.as_mut_slice(), node as usize, Some(link));
        self.met.push(node)?;
        Ok(())
    }

    // Whether a node was met.
    fn has_met(&self, node: u32) -> bool {
        match self.by.get(node as usize) {
            Some(by) => by.is_some(),
            None => false,
        }
    }
}

impl Paths<'_> {
    // Whether an edge may be used.
    fn may_use(&self, why: LinkReason) -> bool {
        match why {
            LinkReason::Found(found) | LinkReason::FoundPast(found) => found < self.below,
            _ => true,
        }
    }

    // Meets all that the edges of a node lead to.
    fn follow(&self, search: &mut Search, node: u32) -> Result<(), AllocError> {
        let mut at = self.by_node.first(node as usize);
        for _ in 0..self.web.links.len() {
            let Some(place) = at else {
                return Ok(());
            };
            if let Some(link) = self.web.links.get(place as usize) {
                if self.may_use(link.why) {
                    search.meet(link.to, place)?;
                }
            }
            at = self.by_node.next(place);
        }
        Ok(())
    }

    // The edges by which a node was met, from another one on.
    fn back(
        &self,
        alloc: Global,
        search: &Search,
        from: u32,
        to: u32,
    ) -> Result<Vec<Link>, AllocError> {
        let mut links = Vec::new(alloc);
        let mut at = to;
        for _ in 0..search.met.len().saturating_add(1) {
            let Some(Some(place)) = search.by.get(at as usize) else {
                break;
            };
            let Some(link) = self.web.links.get(*place as usize) else {
                break;
            };
            links.push(*link)?;
            at = link.from;
            if at == from {
                break;
            }
        }
        links.reverse();
        Ok(links)
    }

    /// The edges of a shortest way from a node to another, or round to itself.
    pub fn way(&self, alloc: Global, from: u32, to: u32) -> Result<Option<Vec<Link>>, AllocError> {
        let mut search = Search {
            by: vec![in alloc; None; self.web.nodes as usize]?,
            met: Vec::new(alloc),
        };
        self.follow(&mut search, from)?;
        for i in 0..self.web.nodes as usize {
            if search.has_met(to) {
                return Ok(Some(self.back(alloc, &search, from, to)?));
            }
            let Some(node) = search.met.get(i) else {
                return Ok(None);
            };
            let node = *node;
            self.follow(&mut search, node)?;
        }
        Ok(None)
    }

    // By node that was not taken, one from which an edge leads to it that was not taken either.
    fn behind(&self, alloc: Global, left: &[u32]) -> Result<Vec<Option<u32>>, AllocError> {
        let mut behind = vec![in alloc; None; self.web.nodes as usize]?;
        for i in 0..self.web.links.len() {
            if let Some(link) = self.web.links.get(i) {
                if is_left(left, link.from) && is_left(left, link.to) {
                    put_at(behind.as_mut_slice(), link.to as usize, Some(link.from));
                }
            }
        }
        Ok(behind)
    }

    /// A short cycle, where not all nodes were taken.
    pub fn cycle(&self, alloc: Global, left: &[u32]) -> Result<Option<Vec<Link>>, AllocError> {
        let behind = self.behind(alloc, left)?;
        let mut at = first_left(left);
        for _ in 0..left.len() {
            at = next_in(behind.as_slice(), at);
        }
        let mut best: Option<Vec<Link>> = None;
        for _ in 0..MOST_TRIED {
            if let Some(found) = self.way(alloc, at, at)? {
                best = Some(shorter(best, found));
            }
            at = next_in(behind.as_slice(), at);
        }
        Ok(best)
    }
}

// The shorter one of two.
fn shorter(best: Option<Vec<Link>>, found: Vec<Link>) -> Vec<Link> {
    let Some(best) = best else {
        return found;
    };
    if best.len() <= found.len() {
        best
    } else {
        found
    }
}

// Whether a node was not taken.
fn is_left(left: &[u32], node: u32) -> bool {
    match left.get(node as usize) {
        Some(count) => *count > 0,
        None => false,
    }
}

// The first node that was not taken.
fn first_left(left: &[u32]) -> u32 {
    for node in 0..left.len() {
        if left[node] > 0 {
            return number(node);
        }
    }
    0
}

// What a table has of a node, else the node.
fn next_in(table: &[Option<u32>], node: u32) -> u32 {
    match table.get(node as usize) {
        Some(Some(next)) => *next,
        _ => node,
    }
}

/// The orders that were found which edges use.
pub fn note_used(used: &mut [bool], links: &[Link]) {
    for i in 0..links.len() {
        match links[i].why {
            LinkReason::Found(found) | LinkReason::FoundPast(found) => put_at(
                used,
                found as usize,
                true,
            ),
            _ => {}
        }
    }
}

/// The nodes between which a way shows that the one chain comes before the other.
pub fn ends_of(web: &Web, loose: &[Loose], found: ChainOrder) -> Option<(u32, u32)> {
    let before = loose.get(found.before as usize)?;
    let behind = loose.get(found.behind as usize)?;
    if found.by_start {
        return Some((start_of(before.first), commit_of(behind.last)));
    }
    Some((web.writer_node(before.first), web.chain_node(behind.chain)))
}
