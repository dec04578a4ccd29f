//! What is learned where literals cannot all be said.

use crate::pairs::opposite;
use crate::solver::{Clash, Learned, Left, Said, Solver};
use std::alloc::{AllocError, Global};
use tx_chains::put_at;

// What is looked at so far.
#[derive(Drop)]
struct Look {
    // by place among what is said: whether it takes part
    part: Vec<bool>,
    // how many of the last level take part and were not replaced
    open: u32,
    top: u32,
    literals: Vec<u32>,
    hints: Vec<Left>,
    // the greatest level but the last of those that take part
    back: u32,
}

impl Look {
    // Notes that the literal at a place takes part.
    fn note(&mut self, place: usize, said: Said) {
        if self.part.get(place) == Some(&true) {
            return;
        }
        put_at(self.part.as_mut_slice(), place, true);
        if said.level == self.top {
            self.open = self.open.saturating_add(1);
        }
    }

    // Whether a literal is to be replaced by what it follows from.
    fn replaces(&self, said: Said) -> bool {
        said.level == 0 || (said.level == self.top && self.open > 1)
    }

    // Keeps a literal: its opposite is part of the clause.
    fn keep(&mut self, said: Said) -> Result<(), AllocError> {
        self.literals.push(opposite(said.literal))?;
        if said.level < self.top {
            self.back = self.back.max(said.level);
        }
        Ok(())
    }
}

impl Solver<'_> {
    // Notes those that a clause is false by, but one.
    fn note_clause(&self, look: &mut Look, clause: u32, but: Option<u32>) {
        let Some(learned) = self.clauses.get(clause as usize) else {
            return;
        };
        let literals = learned.literals.as_slice();
        for i in 0..literals.len() {
            if but == Some(literals[i]) {
                continue;
            }
            if let Some((place, said)) = self.said_of(literals[i]) {
                look.note(place, said);
            }
        }
    }

    // Notes those that close a cycle.
    fn note_clash(&self, look: &mut Look, clash: &Clash) {
        match clash {
            Clash::Clause(clause) => self.note_clause(look, *clause, None),
            Clash::Cycle(lines) => {
                for i in 0..lines.len() {
                    if lines[i].link.is_some() {
                        continue;
                    }
                    if let Some((place, said)) = self.said_of(lines[i].literal) {
                        look.note(place, said);
                    }
                }
            }
        }
    }

    // Looks at the literal at a place, if it takes part: it is kept, or replaced by what it follows
    // from.
    fn look_at_place(&self, look: &mut Look, place: usize) -> Result<(), AllocError> {
        if look.part.get(place) != Some(&true) {
            return Ok(());
        }
        let Some(said) = self.said.get(place) else {
            return Ok(());
        };
        let said = *said;
        let Some(clause) = said.reason else {
            return look.keep(said);
        };
        if !look.replaces(said) {
            return look.keep(said);
        }
        if said.level == look.top {
            look.open = look.open.saturating_sub(1);
        }
        look.hints.push(Left {
            clause,
            literal: said.literal,
        })?;
        self.note_clause(look, clause, Some(said.literal));
        Ok(())
    }

    /// The clause that is learned of a clash: its first literal is left where all was forgotten
    /// that was said after so many literals were chosen.
    pub(crate) fn learned(
        &self,
        alloc: Global,
        clash: Clash,
    ) -> Result<(Learned, u32), AllocError> {
        let count = self.said.len();
        let mut look = Look {
            part: vec![in alloc; false; count]?,
            open: 0,
            top: tx_chains::number(self.limits.len()),
            literals: Vec::new(alloc),
            hints: Vec::new(alloc),
            back: 0,
        };
        self.note_clash(&mut look, &clash);
        for i in 0..count {
            self.look_at_place(&mut look, count - 1 - i)?;
        }
        look.hints.reverse();
        let learned = Learned {
            literals: look.literals,
            hints: look.hints,
            clash,
        };
        Ok((learned, look.back))
    }
}
