//! Orders of two chains that are found, as the opposite one would close a cycle.
ghost use Rattle.std.specs.Prelude.{◌<◌};

use crate::lists::Lists;
use crate::web::{LinkReason, Loose, Web, commit_of, start_of};
use std::alloc::{AllocError, Global};
use tx_chains::{number, put_at};

// How many words of marks each node has, and how many chains these are of.
const WORDS: usize = 16;

const CHAINS: usize = 256;

// How many edges are followed in a round, each for so many chains, and how many pairs are looked
// at.
const MOST_FOLLOWED: usize = 0x800_0000;

const MOST_PAIRS: usize = 0x400_0000;

/// That one chain comes before another of its key, by places among those that have none.
#[derive(Clone, Copy)]
pub struct ChainOrder {
    pub before: u32,
    pub behind: u32,
    /// How many were found in the rounds before.
    pub upto: u32,
    /// Whether the one leads to the last version of the other from its start, else from where
    /// anti-dependencies lead to it to the readers.
    pub by_start: bool,
}

// What may be marked of a chain.
#[derive(Clone, Copy)]
enum Mark {
    FirstStart,
    FirstWriter,
    LastCommit,
    Readers,
}

// An edge, by the places of its nodes in an order.
#[derive(Clone, Copy)]
struct Step {
    from: u32,
    to: u32,
}

// By node, its place in an order.
fn places_of(alloc: Global, nodes: u32, order: &[u32]) -> Result<Vec<u32>, AllocError> {
    let mut places = vec![in alloc; 0u32; nodes as usize]?;
    for i in 0..order.len() {
        put_at(places.as_mut_slice(), order[i] as usize, number(i));
    }
    Ok(places)
}

// The place of a node.
fn place_of(places: &[u32], node: u32) -> u32 {
    match places.get(node as usize) {
        Some(place) => *place,
        None => 0,
    }
}

// Adds the edges of a node.
fn add_steps(
    steps: &mut Vec<Step>,
    web: &Web,
    by_node: &Lists,
    places: &[u32],
    node: u32,
) -> Result<(), AllocError> {
    let from = place_of(places, node);
    let mut at = by_node.first(node as usize);
    for _ in 0..web.links.len() {
        let Some(place) = at else {
            return Ok(());
        };
        if let Some(link) = web.links.get(place as usize) {
            let to = place_of(places, link.to);
            steps.push(Step { from, to })?;
        }
        at = by_node.next(place);
    }
    Ok(())
}

// The edges of all nodes, those of the last one first.
fn steps_of(
    alloc: Global,
    web: &Web,
    by_node: &Lists,
    order: &[u32],
    places: &[u32],
) -> Result<Vec<Step>, AllocError> {
    let mut steps = Vec::new(alloc);
    for i in 0..order.len() {
        let node = order[order.len() - 1 - i];
        add_steps(&mut steps, web, by_node, places, node)?;
    }
    Ok(steps)
}

// Which nodes lead to what of the chains of a block: so many words for each node, in an order of
// the nodes.
#[derive(Drop)]
struct Marks {
    words: Vec<u64>,
    // by node: its place in the order
    places: Vec<u32>,
}

// The place of a mark of the chain at a place of its block.
fn bit_of(place: usize, mark: Mark) -> usize
    requires { place < 256 }
{
    let kind = match mark {
        Mark::FirstStart => 0,
        Mark::FirstWriter => 1,
        Mark::LastCommit => 2,
        Mark::Readers => 3,
    };
    4 * place + kind
}

impl Marks {
    // Nothing is marked.
    fn new(alloc: Global, places: Vec<u32>) -> Result<Marks, AllocError> {
        let words = places.len().saturating_mul(WORDS);
        Ok(Marks {
            words: vec![in alloc; 0u64; words]?,
            places,
        })
    }

    // The place of the word of a node that has this bit.
    fn word_at(&self, node: u32, bit: usize) -> usize {
        let first = place_of(self.places.as_slice(), node) as usize * WORDS;
        first.saturating_add(bit / 64)
    }

    // Forgets all marks.
    fn clear(&mut self) {
        for i in 0..self.words.len() {
            self.words[i] = 0;
        }
    }

    // Whether a node leads to what is marked.
    fn has(&self, node: u32, place: usize, mark: Mark) -> bool {
        if place >= CHAINS {
            return false;
        }
        let bit = bit_of(place, mark);
        match self.words.get(self.word_at(node, bit)) {
            Some(word) => (*word >> (bit % 64)) & 1 == 1,
            None => false,
        }
    }

    // Marks a node.
    fn set(&mut self, node: u32, place: usize, mark: Mark) {
        if place >= CHAINS {
            return;
        }
        let bit = bit_of(place, mark);
        let at = self.word_at(node, bit);
        if at < self.words.len() {
            self.words[at] = self.words[at] | (1u64 << (bit % 64));
        }
    }

    // Marks the node at a place with all that the one at another place leads to.
    fn merge(&mut self, into: u32, from: u32) {
        let into = into as usize * WORDS;
        let from = from as usize * WORDS;
        let words = self.words.as_mut_slice();
        if into + WORDS > words.len() || from + WORDS > words.len() {
            return;
        }
        for i in 0..WORDS {
            words[into + i] = words[into + i] | words[from + i];
        }
    }

    // Marks each node with all that it leads to, by the edges of all, those of the last one first.
    fn sweep(&mut self, steps: &[Step]) {
        for i in 0..steps.len() {
            self.merge(steps[i].from, steps[i].to);
        }
    }

    // Marks the chains from a place on.
    fn mark_chains(&mut self, web: &Web, loose: &[Loose], first: usize) {
        for i in 0..CHAINS {
            if let Some(chain) = loose.get(first.saturating_add(i)) {
                self.set(start_of(chain.first), i, Mark::FirstStart);
                self.set(web.writer_node(chain.first), i, Mark::FirstWriter);
                self.set(commit_of(chain.last), i, Mark::LastCommit);
                self.set(web.chain_node(chain.chain), i, Mark::Readers);
            }
        }
    }
}

/// What was found, and the graph with it.
#[derive(Drop)]
pub struct Finds<'a> {
    pub web: Web,
    pub loose: &'a [Loose],
    pub found: Vec<ChainOrder>,
}

impl Finds<'_> {
    // Adds that one chain comes before another, where the graph lacks it.
    fn add(
        &mut self,
        marks: &Marks,
        before: usize,
        behind: usize,
        place: usize,
        upto: u32,
    ) -> Result<(), AllocError> {
        if before >= self.loose.len() || behind >= self.loose.len() {
            return Ok(());
        }
        let one = self.loose[before];
        let other = self.loose[behind];
        let by_start = marks.has(start_of(one.first), place, Mark::LastCommit);
        let writer = self.web.writer_node(one.first);
        if !by_start && !marks.has(writer, place, Mark::Readers) {
            return Ok(());
        }
        let node = self.web.chain_node(one.chain);
        let lacks = !marks.has(commit_of(one.last), place, Mark::FirstStart);
        let lacks_readers = one.read && !marks.has(node, place, Mark::FirstWriter);
        if !lacks && !lacks_readers {
            return Ok(());
        }
        let number_of = number(self.found.len());
        self.found.push(ChainOrder {
            before: number(before),
            behind: number(behind),
            upto,
            by_start,
        })?;
        if lacks {
            let from = commit_of(one.last);
            self.web
                .add(from, start_of(other.first), LinkReason::Found(number_of))?;
        }
        if lacks_readers {
            let to = self.web.writer_node(other.first);
            self.web.add(node, to, LinkReason::FoundPast(number_of))?;
        }
        Ok(())
    }

    // Adds which chains of its key come before the one at a place of a block.
    fn add_before(
        &mut self,
        marks: &Marks,
        behind: usize,
        place: usize,
        group: (usize, usize),
        upto: u32,
    ) -> Result<(), AllocError> {
        for before in group.0..group.1 {
            if before != behind {
                self.add(marks, before, behind, place, upto)?;
            }
        }
        Ok(())
    }

    // Adds what the marks of a block say.
    fn add_block(
        &mut self,
        marks: &Marks,
        groups: &[(usize, usize)],
        first: usize,
        upto: u32,
    ) -> Result<(), AllocError> {
        for place in 0..CHAINS {
            let behind = first.saturating_add(place);
            if let Some(group) = groups.get(behind) {
                self.add_before(marks, behind, place, *group, upto)?;
            }
        }
        Ok(())
    }

    // Whether the graph and the pairs are few enough.
    fn are_few(&self, groups: &[(usize, usize)]) -> bool {
        let blocks = self.loose.len() / CHAINS + 1;
        if self.web.links.len().saturating_mul(blocks) > MOST_FOLLOWED {
            return false;
        }
        pairs_of(groups) <= MOST_PAIRS
    }

    /// Adds all that is found at once; whether that is something.
    pub fn add_round(
        &mut self,
        alloc: Global,
        by_node: &Lists,
        order: &[u32],
        groups: &[(usize, usize)],
    ) -> Result<bool, AllocError> {
        if !self.are_few(groups) {
            return Ok(false);
        }
        let upto = number(self.found.len());
        let places = places_of(alloc, self.web.nodes, order)?;
        let steps = steps_of(alloc, &self.web, by_node, order, places.as_slice())?;
        let mut marks = Marks::new(alloc, places)?;
        let blocks = self.loose.len() / CHAINS + 1;
        for block in 0..blocks {
            let first = block.saturating_mul(CHAINS);
            marks.clear();
            marks.mark_chains(&self.web, self.loose, first);
            marks.sweep(steps.as_slice());
            self.add_block(&marks, groups, first, upto)?;
        }
        Ok(number(self.found.len()) > upto)
    }
}

// How many pairs of chains of one key there are.
fn pairs_of(groups: &[(usize, usize)]) -> usize {
    let mut pairs = 0usize;
    for i in 0..groups.len() {
        let (from, upto) = groups[i];
        pairs = pairs.saturating_add(upto.saturating_sub(from));
    }
    pairs
}

// Where the chains of the same key as the one at a place end.
fn end_of(loose: &[Loose], from: usize, key: u32) -> usize {
    for i in from..loose.len() {
        if loose[i].key != key {
            return i;
        }
    }
    loose.len()
}

/// By chain, from where to where those of its key lie.
pub fn groups_of(alloc: Global, loose: &[Loose]) -> Result<Vec<(usize, usize)>, AllocError> {
    let mut groups = Vec::new(alloc);
    let mut from = 0usize;
    let mut upto = 0usize;
    for i in 0..loose.len() {
        if i >= upto {
            from = i;
            upto = end_of(loose, i, loose[i].key);
        }
        groups.push((from, upto))?;
    }
    Ok(groups)
}
