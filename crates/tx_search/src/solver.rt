//! What is said of pairs, one after the other, and what follows from clauses.

use crate::net::{Line, Net};
use crate::pairs::{Pairs, opposite};
use std::alloc::{AllocError, Global};
use tx_chains::{number, put_at};
use tx_web::{Link, Loose, Web, commit_of, start_of};

/// A literal that is said.
#[derive(Clone, Copy)]
pub(crate) struct Said {
    pub(crate) literal: u32,
    /// The clause that leaves nothing else, unless it was chosen.
    pub(crate) reason: Option<u32>,
    /// How many literals were chosen until then.
    pub(crate) level: u32,
    /// How many edges there were before.
    pub(crate) lines: usize,
}

/// A literal that a clause leaves, by the number of the clause.
#[derive(Clone, Copy)]
pub(crate) struct Left {
    pub(crate) clause: u32,
    pub(crate) literal: u32,
}

/// Why literals cannot all be said.
#[derive(Drop)]
pub(crate) enum Clash {
    /// They close this cycle.
    Cycle(Vec<Line>),
    /// The clause of this number leaves none.
    Clause(u32),
}

/// A clause, with what it follows from.
#[derive(Drop)]
pub(crate) struct Learned {
    pub(crate) literals: Vec<u32>,
    pub(crate) hints: Vec<Left>,
    pub(crate) clash: Clash,
}

/// A search.
#[derive(Drop)]
pub(crate) struct Solver<'a> {
    pub(crate) web: &'a Web,
    pub(crate) loose: &'a [Loose],
    pub(crate) pairs: Pairs,
    pub(crate) net: Net,
    // by pair: where it stands among what is said, from 1 on
    pub(crate) places: Vec<u32>,
    pub(crate) said: Vec<Said>,
    // by pair: the literal of it that was said last, and how many clauses there were when one was
    // learned that has it
    pub(crate) kept: Vec<Option<u32>>,
    pub(crate) learned_at: Vec<u32>,
    // how much was said when each literal was chosen
    pub(crate) limits: Vec<usize>,
    pub(crate) clauses: Vec<Learned>,
    // by literal: its last entry, and by entry: the one before it, and its clause
    pub(crate) first: Vec<Option<u32>>,
    pub(crate) next: Vec<Option<u32>>,
    pub(crate) of_clause: Vec<u32>,
}

impl<'a> Solver<'a> {
    /// Nothing is said.
    pub(crate) fn new(
        alloc: Global,
        web: &'a Web,
        loose: &'a [Loose],
        pairs: Pairs,
        net: Net,
    ) -> Result<Solver<'a>, AllocError> {
        let count = pairs.len();
        Ok(Solver {
            web,
            loose,
            places: vec![in alloc; 0u32; count]?,
            kept: vec![in alloc; None; count]?,
            learned_at: vec![in alloc; 0u32; count]?,
            first: vec![in alloc; None; count.saturating_mul(2)]?,
            pairs,
            net,
            said: Vec::new(alloc),
            limits: Vec::new(alloc),
            clauses: Vec::new(alloc),
            next: Vec::new(alloc),
            of_clause: Vec::new(alloc),
        })
    }

    /// What is said of the pair of a literal, and where.
    pub(crate) fn said_of(&self, literal: u32) -> Option<(usize, Said)> {
        let place = self.places.get(literal as usize / 2)?;
        let at = (*place as usize).checked_sub(1)?;
        let said = self.said.get(at)?;
        Some((at, *said))
    }

    /// Whether nothing is said of the pair of a literal.
    pub(crate) fn is_free(&self, literal: u32) -> bool {
        self.said_of(literal).is_none()
    }

    /// The literal that was said last of the pair of a literal.
    pub(crate) fn kept(&self, literal: u32) -> Option<u32> {
        let kept = self.kept.get(literal as usize / 2)?;
        *kept
    }

    /// How many clauses were learned since one that has the pair of a literal.
    pub(crate) fn age(&self, literal: u32) -> u32 {
        let count = number(self.clauses.len());
        match self.learned_at.get(literal as usize / 2) {
            Some(at) => count.saturating_sub(*at),
            None => count,
        }
    }

    // Whether the opposite of a literal is said.
    fn is_false(&self, literal: u32) -> bool {
        match self.said_of(literal) {
            Some((_, said)) => said.literal != literal,
            None => false,
        }
    }

    // Adds an edge of a literal.
    fn add_line(
        &mut self,
        alloc: Global,
        from: u32,
        to: u32,
        literal: u32,
        past: bool,
    ) -> Result<Option<Clash>, AllocError> {
        let line = Line {
            from,
            to,
            link: None,
            literal,
            past,
        };
        match self.net.insert(alloc, line)? {
            Some(cycle) => Ok(Some(Clash::Cycle(cycle))),
            None => Ok(None),
        }
    }

    // Adds the edges of a literal, or finds the cycle that one closes.
    fn add_lines(&mut self, alloc: Global, literal: u32) -> Result<Option<Clash>, AllocError> {
        let Some((before, behind)) = self.pairs.chains(literal) else {
            return Ok(None);
        };
        let Some(one) = self.loose.get(before as usize) else {
            return Ok(None);
        };
        let Some(other) = self.loose.get(behind as usize) else {
            return Ok(None);
        };
        let (one, other) = (*one, *other);
        let (from, to) = (commit_of(one.last), start_of(other.first));
        if let Some(clash) = self.add_line(alloc, from, to, literal, false)? {
            return Ok(Some(clash));
        }
        if !one.read {
            return Ok(None);
        }
        let node = self.web.chain_node(one.chain);
        let writer = self.web.writer_node(other.first);
        self.add_line(alloc, node, writer, literal, true)
    }

    /// Says a literal, and adds its edges, or finds the cycle that one closes.
    pub(crate) fn say(
        &mut self,
        alloc: Global,
        literal: u32,
        reason: Option<u32>,
    ) -> Result<Option<Clash>, AllocError> {
        self.said.push(Said {
            literal,
            reason,
            level: number(self.limits.len()),
            lines: self.net.len(),
        })?;
        let place = number(self.said.len());
        let pair = literal as usize / 2;
        put_at(self.places.as_mut_slice(), pair, place);
        put_at(self.kept.as_mut_slice(), pair, Some(literal));
        self.add_lines(alloc, literal)
    }

    /// Chooses a literal.
    pub(crate) fn choose(
        &mut self,
        alloc: Global,
        literal: u32,
    ) -> Result<Option<Clash>, AllocError> {
        self.limits.push(self.said.len())?;
        let from = self.said.len();
        match self.say(alloc, literal, None)? {
            Some(clash) => Ok(Some(clash)),
            None => self.propagate(alloc, from),
        }
    }

    // The literal that a clause leaves: none where one of its literals is said or two are free.
    fn left_of(&self, clause: u32) -> Result<Option<u32>, Clash> {
        let Some(learned) = self.clauses.get(clause as usize) else {
            return Ok(None);
        };
        let literals = learned.literals.as_slice();
        let mut left = None;
        for i in 0..literals.len() {
            if self.is_false(literals[i]) {
                continue;
            }
            if left.is_some() || !self.is_free(literals[i]) {
                return Ok(None);
            }
            left = Some(literals[i]);
        }
        match left {
            Some(literal) => Ok(Some(literal)),
            None => Err(Clash::Clause(clause)),
        }
    }

    // Says what a clause leaves.
    fn look_at(&mut self, alloc: Global, clause: u32) -> Result<Option<Clash>, AllocError> {
        match self.left_of(clause) {
            Ok(Some(literal)) => self.say(alloc, literal, Some(clause)),
            Ok(None) => Ok(None),
            Err(clash) => Ok(Some(clash)),
        }
    }

    // Says what the clauses leave that have the opposite of a literal.
    fn follow(&mut self, alloc: Global, literal: u32) -> Result<Option<Clash>, AllocError> {
        let mut at = self.entry(opposite(literal));
        for _ in 0..self.next.len() {
            let Some(entry) = at else {
                return Ok(None);
            };
            let clause = match self.of_clause.get(entry as usize) {
                Some(clause) => *clause,
                None => 0,
            };
            if let Some(clash) = self.look_at(alloc, clause)? {
                return Ok(Some(clash));
            }
            at = match self.next.get(entry as usize) {
                Some(next) => *next,
                None => None,
            };
        }
        Ok(None)
    }

    // The last entry of a literal.
    fn entry(&self, literal: u32) -> Option<u32> {
        let entry = self.first.get(literal as usize)?;
        *entry
    }

    /// Says all that follows from clauses and from what is said from a place on.
    pub(crate) fn propagate(
        &mut self,
        alloc: Global,
        from: usize,
    ) -> Result<Option<Clash>, AllocError> {
        for place in from..self.pairs.len() {
            let Some(said) = self.said.get(place) else {
                return Ok(None);
            };
            let literal = said.literal;
            if let Some(clash) = self.follow(alloc, literal)? {
                return Ok(Some(clash));
            }
        }
        Ok(None)
    }

    // Forgets what was said last.
    fn forget(&mut self) {
        if let Some(said) = self.said.pop() {
            put_at(self.places.as_mut_slice(), said.literal as usize / 2, 0);
            self.net.cut(said.lines);
        }
    }

    // Forgets all but the first so much that is said.
    fn forget_to(&mut self, count: usize) {
        for _ in count..self.said.len() {
            self.forget();
        }
    }

    /// Forgets all that was said after so many literals were chosen.
    pub(crate) fn back_to(&mut self, level: u32) {
        let Some(limit) = self.limits.get(level as usize) else {
            return;
        };
        let count = *limit;
        self.forget_to(count);
        self.limits.truncate(level as usize);
    }

    // Adds an entry of a clause.
    fn add_entry(&mut self, literal: u32, clause: u32) -> Result<(), AllocError> {
        let entry = number(self.next.len());
        let before = self.entry(literal);
        self.next.push(before)?;
        self.of_clause.push(clause)?;
        put_at(self.first.as_mut_slice(), literal as usize, Some(entry));
        Ok(())
    }

    /// Adds a clause, and its number.
    pub(crate) fn add(&mut self, learned: Learned) -> Result<u32, AllocError> {
        let clause = number(self.clauses.len());
        for i in 0..learned.literals.len() {
            let literal = learned.literals[i];
            self.add_entry(literal, clause)?;
            let at = self.learned_at.as_mut_slice();
            put_at(at, literal as usize / 2, clause.saturating_add(1));
        }
        self.clauses.push(learned)?;
        Ok(clause)
    }
}
