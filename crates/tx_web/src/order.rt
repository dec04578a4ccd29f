//! An order of a graph's nodes: each behind all that its edges come from.
use crate::lists::Lists;
use crate::web::Web;
use std::alloc::{AllocError, Global};
use tx_chains::put_at;

/// The nodes of a graph, each behind all that its edges come from, as far as there is no cycle.
#[derive(Drop)]
pub struct TopologicalOrder {
    pub order: Vec<u32>,
    /// By node: how many edges lead to it from nodes that were not taken.
    pub left: Vec<u32>,
}

// By node, how many edges lead to it.
fn count_edges(alloc: Global, web: &Web) -> Result<Vec<u32>, AllocError> {
    let mut left = vec![in alloc; 0u32; web.nodes as usize]?;
    for i in 0..web.links.len() {
        if let Some(link) = web.links.get(i) {
            let node = link.to as usize;
            if let Some(count) = left.get(node) {
                let more = count.saturating_add(1);
                put_at(left.as_mut_slice(), node, more);
            }
        }
    }
    Ok(left)
}

impl TopologicalOrder {
    // Passes an edge to a node.
    fn pass(&mut self, node: u32) -> Result<(), AllocError> {
        let Some(count) = self.left.get(node as usize) else {
            return Ok(());
        };
        let left = count.saturating_sub(1);
        put_at(self.left.as_mut_slice(), node as usize, left);
        if left == 0 {
            self.order.push(node)?;
        }
        Ok(())
    }

    // Takes the nodes that no edge leads to.
    fn take_first(&mut self, nodes: u32) -> Result<(), AllocError> {
        for node in 0..nodes {
            if self.left.get(node as usize) == Some(&0) {
                self.order.push(node)?;
            }
        }
        Ok(())
    }

    // Passes the edges of a node.
    fn leave(&mut self, web: &Web, by_node: &Lists, node: u32) -> Result<(), AllocError> {
        let mut at = by_node.first(node as usize);
        for _ in 0..web.links.len() {
            let Some(place) = at else {
                return Ok(());
            };
            if let Some(link) = web.links.get(place as usize) {
                self.pass(link.to)?;
            }
            at = by_node.next(place);
        }
        Ok(())
    }
}

/// The nodes of a graph, each behind all that its edges come from, as far as there is no cycle.
pub fn taken_of(alloc: Global, web: &Web, by_node: &Lists) -> Result<TopologicalOrder, AllocError> {
    let mut taken = TopologicalOrder {
        order: Vec::new(alloc),
        left: count_edges(alloc, web)?,
    };
    taken.take_first(web.nodes)?;
    for i in 0..web.nodes as usize {
        let Some(node) = taken.order.get(i) else {
            return Ok(taken);
        };
        let node = *node;
        taken.leave(web, by_node, node)?;
    }
    Ok(taken)
}
