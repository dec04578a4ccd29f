//! Which pair is put in order next: of those that overlap in the order of the nodes one that took
//! part in what was learned last, else the first.

use crate::solver::Solver;
use std::alloc::{AllocError, Global};
use tx_web::{Loose, commit_of, start_of};

/// Pairs of chains that overlapped when they were looked for, or were learned of since: those to be
/// chosen first stand last.
#[derive(Drop)]
pub(crate) struct Choices {
    pub(crate) pairs: Vec<Choice>,
}

/// A pair of chains: how long nothing has been learned of it, the place where it overlapped, and
/// the places of the chains.
pub(crate) type Choice = (u32, u32, u32, u32);

impl Choices {
    /// Adds the pair of a literal of which something was learned just now.
    pub(crate) fn add_learned(&mut self, pair: (u32, u32)) -> Result<(), AllocError> {
        let (before, behind) = pair;
        self.pairs.push((0, 0, before, behind))?;
        Ok(())
    }
}

// How far the chains of a key reach that were looked at.
#[derive(Clone, Copy)]
struct Row {
    last: Option<u32>,
    // the one whose readers start last, and where
    readers: Option<u32>,
    upto: u32,
}

impl Solver<'_> {
    // A chain.
    fn chain(&self, place: u32) -> Option<Loose> {
        let loose = self.loose.get(place as usize)?;
        Some(*loose)
    }

    // Whether two chains overlap in the order, or those who saw the last version of the first
    // start too late.
    fn overlap(&self, before: u32, behind: u32) -> bool {
        let Some(one) = self.chain(before) else {
            return false;
        };
        let Some(other) = self.chain(behind) else {
            return false;
        };
        if self.net.place(commit_of(one.last)) > self.net.place(start_of(other.first)) {
            return true;
        }
        let node = self.web.chain_node(one.chain);
        one.read && self.net.place(node) > self.net.place(self.web.writer_node(other.first))
    }

    // Where a chain ends in the order.
    fn end(&self, place: u32) -> u32 {
        match self.chain(place) {
            Some(chain) => self.net.place(commit_of(chain.last)),
            None => 0,
        }
    }

    // Adds a pair, unless it is said which comes first.
    fn add_pair(
        &self,
        choices: &mut Choices,
        at: u32,
        before: u32,
        behind: u32,
    ) -> Result<(), AllocError> {
        let literal = self.pairs.literal(before, behind);
        if self.is_free(literal) {
            let age = self.age(literal);
            choices.pairs.push((age, at, before, behind))?;
        }
        Ok(())
    }

    // Adds the pairs of a chain with those before it that it overlaps.
    fn add_chain(
        &self,
        choices: &mut Choices,
        row: &mut Row,
        place: u32,
    ) -> Result<(), AllocError> {
        let Some(chain) = self.chain(place) else {
            return Ok(());
        };
        let at = self.net.place(start_of(chain.first));
        let commit = self.net.place(self.web.writer_node(chain.first));
        if let Some(last) = row.last {
            if self.overlap(last, place) {
                self.add_pair(choices, at, last, place)?;
            }
        }
        if let Some(readers) = row.readers {
            if row.upto > commit {
                self.add_pair(choices, commit, readers, place)?;
            }
        }
        let node = self.net.place(self.web.chain_node(chain.chain));
        if chain.read && (row.readers.is_none() || node > row.upto) {
            row.readers = Some(place);
            row.upto = node;
        }
        row.last = Some(place);
        Ok(())
    }

    // The chains of a key, in the order of their ends.
    fn row_of(
        &self,
        alloc: Global,
        from: usize,
        upto: usize,
    ) -> Result<Vec<(u32, u32)>, AllocError> {
        let mut row = Vec::new(alloc);
        for place in from..upto {
            let chain = tx_chains::number(place);
            row.push((self.end(chain), chain))?;
        }
        row.sort()?;
        Ok(row)
    }

    // Adds the pairs of a key that overlap.
    fn add_key(
        &self,
        alloc: Global,
        choices: &mut Choices,
        from: usize,
        upto: usize,
    ) -> Result<(), AllocError> {
        let chains = self.row_of(alloc, from, upto)?;
        let mut row = Row {
            last: None,
            readers: None,
            upto: 0,
        };
        for i in 0..chains.len() {
            self.add_chain(choices, &mut row, chains[i].1)?;
        }
        Ok(())
    }

    // Adds all pairs that overlap.
    fn look_for(
        &self,
        alloc: Global,
        choices: &mut Choices,
        groups: &[(usize, usize)],
    ) -> Result<(), AllocError> {
        for i in 0..groups.len() {
            let (from, upto) = groups[i];
            if from == i {
                self.add_key(alloc, choices, from, upto)?;
            }
        }
        choices.pairs.sort()?;
        choices.pairs.reverse();
        Ok(())
    }

    // The literal of a pair that overlaps and of which nothing is said: the one that was said last,
    // else as the order has it.
    fn literal_of(&self, before: u32, behind: u32) -> Option<u32> {
        let any = self.pairs.literal(before, behind);
        if !self.is_free(any) {
            return None;
        }
        let (one, other) = if self.end(before) > self.end(behind) {
            (behind, before)
        } else {
            (before, behind)
        };
        if self.overlap(one, other) {
            Some(self.kept(any).unwrap_or(self.pairs.literal(one, other)))
        } else {
            None
        }
    }

    // The first of the pairs that were found that overlaps.
    fn next_choice(&self, choices: &mut Choices) -> Option<u32> {
        for _ in 0..choices.pairs.len().saturating_add(1) {
            let (_, _, before, behind) = choices.pairs.pop()?;
            if let Some(literal) = self.literal_of(before, behind) {
                return Some(literal);
            }
        }
        None
    }

    /// The literal to choose next; none where no two chains of a key overlap.
    pub(crate) fn pick(
        &self,
        alloc: Global,
        choices: &mut Choices,
        groups: &[(usize, usize)],
    ) -> Result<Option<u32>, AllocError> {
        if let Some(literal) = self.next_choice(choices) {
            return Ok(Some(literal));
        }
        self.look_for(alloc, choices, groups)?;
        Ok(self.next_choice(choices))
    }
}
