//! A graph whose nodes are kept in an order, each before those that its edges lead to, as edges are
//! added and taken away again (Pearce and Kelly).

use std::alloc::{AllocError, Global};
use tx_chains::{number, put_at};
use tx_web::Web;

/// An edge.
#[derive(Clone, Copy)]
pub(crate) struct Line {
    pub(crate) from: u32,
    pub(crate) to: u32,
    /// Where it stands among those of the graph that it began with, if it is one.
    pub(crate) link: Option<u32>,
    /// By which literal it was added.
    pub(crate) literal: u32,
    /// Whether it is one of those who saw the last version of the chain.
    pub(crate) past: bool,
}

/// A graph with an order of its nodes.
#[derive(Drop)]
pub(crate) struct Net {
    nodes: u32,
    lines: Vec<Line>,
    // by node: its last edge, and by edge: the one before it of that node
    first_out: Vec<Option<u32>>,
    next_out: Vec<Option<u32>>,
    first_in: Vec<Option<u32>>,
    next_in: Vec<Option<u32>>,
    // by node: its place
    at: Vec<u32>,
    // by node: in which search it was met last, and by which edge
    met: Vec<u32>,
    by: Vec<u32>,
    searches: u32,
}

// The number that a table has of a node.
fn number_at(table: &[u32], node: u32) -> u32 {
    match table.get(node as usize) {
        Some(number) => *number,
        None => 0,
    }
}

// The edge that a table has at a place.
fn line_at(table: &[Option<u32>], place: u32) -> Option<u32> {
    let found = table.get(place as usize)?;
    *found
}

// The nodes with their places, in their order.
fn in_order(alloc: Global, at: &[u32], nodes: &[u32]) -> Result<Vec<(u32, u32)>, AllocError> {
    let mut placed = Vec::new(alloc);
    for i in 0..nodes.len() {
        placed.push((number_at(at, nodes[i]), nodes[i]))?;
    }
    placed.sort()?;
    Ok(placed)
}

impl Net {
    /// The graph, in this order of its nodes.
    pub(crate) fn new(alloc: Global, web: &Web, order: &[u32]) -> Result<Net, AllocError> {
        let count = web.nodes as usize;
        let mut net = Net {
            nodes: web.nodes,
            lines: Vec::new(alloc),
            first_out: vec![in alloc; None; count]?,
            next_out: Vec::new(alloc),
            first_in: vec![in alloc; None; count]?,
            next_in: Vec::new(alloc),
            at: vec![in alloc; 0u32; count]?,
            met: vec![in alloc; 0u32; count]?,
            by: vec![in alloc; 0u32; count]?,
            searches: 0,
        };
        net.place_all(order);
        net.add_links(web)?;
        Ok(net)
    }

    // Places the nodes in an order.
    fn place_all(&mut self, order: &[u32]) {
        for i in 0..order.len() {
            put_at(self.at.as_mut_slice(), order[i] as usize, number(i));
        }
    }

    // Adds the edges of a graph.
    fn add_links(&mut self, web: &Web) -> Result<(), AllocError> {
        for i in 0..web.links.len() {
            if let Some(link) = web.links.get(i) {
                self.push(Line {
                    from: link.from,
                    to: link.to,
                    link: Some(number(i)),
                    literal: 0,
                    past: false,
                })?;
            }
        }
        Ok(())
    }

    /// The place of a node.
    pub(crate) fn place(&self, node: u32) -> u32 {
        number_at(self.at.as_slice(), node)
    }

    /// How many edges there are.
    pub(crate) fn len(&self) -> usize {
        self.lines.len()
    }

    // Adds an edge.
    fn push(&mut self, line: Line) -> Result<(), AllocError> {
        let place = number(self.lines.len());
        let from = line_at(self.first_out.as_slice(), line.from);
        let to = line_at(self.first_in.as_slice(), line.to);
        self.lines.push(line)?;
        self.next_out.push(from)?;
        self.next_in.push(to)?;
        put_at(
            self.first_out.as_mut_slice(),
            line.from as usize,
            Some(place),
        );
        put_at(self.first_in.as_mut_slice(), line.to as usize, Some(place));
        Ok(())
    }

    // Takes the last edge away.
    fn pop(&mut self) {
        let Some(line) = self.lines.pop() else {
            return;
        };
        let from = self.next_out.pop().flatten();
        let to = self.next_in.pop().flatten();
        put_at(self.first_out.as_mut_slice(), line.from as usize, from);
        put_at(self.first_in.as_mut_slice(), line.to as usize, to);
    }

    /// Takes away all edges but the first so many.
    pub(crate) fn cut(&mut self, count: usize) {
        for _ in count..self.lines.len() {
            self.pop();
        }
    }

    // Whether a node was met in this search; it is now.
    fn meet(&mut self, node: u32, by: u32) -> bool {
        if number_at(self.met.as_slice(), node) == self.searches {
            return true;
        }
        put_at(self.met.as_mut_slice(), node as usize, self.searches);
        put_at(self.by.as_mut_slice(), node as usize, by);
        false
    }

    // Meets those that the edges of a node lead to and that are placed before another, which may be
    // one of them: then it is met as well.
    fn follow(&mut self, ahead: &mut Vec<u32>, node: u32, goal: u32) -> Result<bool, AllocError> {
        let below = self.place(goal);
        let mut at = line_at(self.first_out.as_slice(), node);
        for _ in 0..self.lines.len() {
            let Some(place) = at else {
                return Ok(false);
            };
            if let Some(line) = self.lines.get(place as usize) {
                let to = line.to;
                if to == goal {
                    put_at(self.by.as_mut_slice(), to as usize, place);
                    return Ok(true);
                }
                if self.place(to) < below && !self.meet(to, place) {
                    ahead.push(to)?;
                }
            }
            at = line_at(self.next_out.as_slice(), place);
        }
        Ok(false)
    }

    // Meets those whose edges lead to a node and that are placed behind another.
    fn follow_back(
        &mut self,
        behind: &mut Vec<u32>,
        node: u32,
        above: u32,
    ) -> Result<(), AllocError> {
        let mut at = line_at(self.first_in.as_slice(), node);
        for _ in 0..self.lines.len() {
            let Some(place) = at else {
                return Ok(());
            };
            if let Some(line) = self.lines.get(place as usize) {
                let from = line.from;
                if self.place(from) > above && !self.meet(from, place) {
                    behind.push(from)?;
                }
            }
            at = line_at(self.next_in.as_slice(), place);
        }
        Ok(())
    }

    // All that a node leads to and that are placed before another, unless it leads to that one.
    fn ahead(
        &mut self,
        alloc: Global,
        from: u32,
        goal: u32,
    ) -> Result<Option<Vec<u32>>, AllocError> {
        self.searches = self.searches.saturating_add(1);
        let mut ahead = Vec::new(alloc);
        ahead.push(from)?;
        let _ = self.meet(from, 0);
        for i in 0..self.nodes as usize {
            let Some(node) = ahead.get(i) else {
                return Ok(Some(ahead));
            };
            let node = *node;
            if self.follow(&mut ahead, node, goal)? {
                return Ok(None);
            }
        }
        Ok(Some(ahead))
    }

    // All that lead to a node and that are placed behind another.
    fn behind(&mut self, alloc: Global, to: u32, above: u32) -> Result<Vec<u32>, AllocError> {
        self.searches = self.searches.saturating_add(1);
        let mut behind = Vec::new(alloc);
        behind.push(to)?;
        let _ = self.meet(to, 0);
        for i in 0..self.nodes as usize {
            let Some(node) = behind.get(i) else {
                return Ok(behind);
            };
            let node = *node;
            self.follow_back(&mut behind, node, above)?;
        }
        Ok(behind)
    }

    // Places those that lead to an edge before those that it leads to, on their places.
    fn reorder(&mut self, alloc: Global, behind: &[u32], ahead: &[u32]) -> Result<(), AllocError> {
        let mut nodes = in_order(alloc, self.at.as_slice(), behind)?;
        let more = in_order(alloc, self.at.as_slice(), ahead)?;
        nodes.extend_from_slice(more.as_slice())?;
        let mut places = Vec::new(alloc);
        for i in 0..nodes.len() {
            places.push(nodes[i].0)?;
        }
        places.sort()?;
        self.put_all(nodes.as_slice(), places.as_slice());
        Ok(())
    }

    // Puts nodes on places.
    fn put_all(&mut self, nodes: &[(u32, u32)], places: &[u32]) {
        for i in 0..nodes.len() {
            if let Some(place) = places.get(i) {
                put_at(self.at.as_mut_slice(), nodes[i].1 as usize, *place);
            }
        }
    }

    // The edges by which a node was met, from another one on.
    fn way(&self, alloc: Global, from: u32, to: u32) -> Result<Vec<Line>, AllocError> {
        let mut lines = Vec::new(alloc);
        let mut at = to;
        for _ in 0..self.nodes as usize {
            let Some(line) = self.lines.get(number_at(self.by.as_slice(), at) as usize) else {
                break;
            };
            lines.push(*line)?;
            at = line.from;
            if at == from {
                break;
            }
        }
        lines.reverse();
        Ok(lines)
    }

    /// Adds an edge, or finds the cycle that it would close: the other edges in turn, and then this
    /// one.
    pub(crate) fn insert(
        &mut self,
        alloc: Global,
        line: Line,
    ) -> Result<Option<Vec<Line>>, AllocError> {
        if line.from >= self.nodes || line.to >= self.nodes {
            return Ok(None);
        }
        let above = self.place(line.to);
        if self.place(line.from) > above {
            let Some(ahead) = self.ahead(alloc, line.to, line.from)? else {
                let mut cycle = self.way(alloc, line.to, line.from)?;
                cycle.push(line)?;
                return Ok(Some(cycle));
            };
            let behind = self.behind(alloc, line.from, above)?;
            self.reorder(alloc, behind.as_slice(), ahead.as_slice())?;
        }
        self.push(line)?;
        Ok(None)
    }
}
