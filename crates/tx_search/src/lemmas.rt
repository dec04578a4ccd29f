//! The refutation that a search ends with: orders that were found, and clauses, each with what it
//! follows from.
ghost use Rattle.tx_history.specs.Records.{IsRecorded};

use crate::net::Line;
use crate::pairs::opposite;
use crate::rounds::{all_shown, from_transaction, places_of, settled_of};
use crate::solver::{Clash, Learned, Left, Solver};
use crate::trail::{Book, Chosen, Trail, first_of, last_of, trail_of};
use std::alloc::{AllocError, Global};
use tx_chains::{number, put_at};
use tx_verdict::{Behind, EdgeKind, Ground, Hint, Lemma, Refutation, Versions, WriteOrder};
use tx_web::{Finds, Link, LinkReason, Lists, Loose, note_used};

// Which clauses are told, and by clause its number among these.
#[derive(Drop)]
struct Told {
    clauses: Vec<u32>,
    numbers: Vec<u32>,
}

// Marks the clauses that a clause follows from.
fn mark(needed: &mut [bool], learned: &Learned) {
    for i in 0..learned.hints.len() {
        put_at(needed, learned.hints[i].clause as usize, true);
    }
    if let Clash::Clause(clause) = &learned.clash {
        put_at(needed, *clause as usize, true);
    }
}

// The clauses that the last one follows from, and those that these do.
fn told_of(alloc: Global, clauses: &[Learned], last: &Learned) -> Result<Told, AllocError> {
    let mut needed = vec![in alloc; false; clauses.len()]?;
    mark(needed.as_mut_slice(), last);
    for i in 0..clauses.len() {
        let place = clauses.len() - 1 - i;
        if needed.get(place) == Some(&true) {
            mark(needed.as_mut_slice(), &clauses[place]);
        }
    }
    numbers_of(alloc, needed.as_slice())
}

// The numbers of the clauses that are needed.
fn numbers_of(alloc: Global, needed: &[bool]) -> Result<Told, AllocError> {
    let mut told = Told {
        clauses: Vec::new(alloc),
        numbers: Vec::new(alloc),
    };
    for i in 0..needed.len() {
        told.numbers.push(number(told.clauses.len()))?;
        if needed[i] {
            told.clauses.push(number(i))?;
        }
    }
    Ok(told)
}

impl Told {
    // The number of a clause among those that are told.
    fn number(&self, clause: u32) -> u32 {
        match self.numbers.get(clause as usize) {
            Some(number) => *number,
            None => 0,
        }
    }
}

// The edges of a cycle.
fn links_of(alloc: Global, links: &[Link], lines: &[Line]) -> Result<Vec<Link>, AllocError> {
    let mut cycle = Vec::new(alloc);
    for i in 0..lines.len() {
        cycle.push(link_of(links, lines[i]))?;
    }
    Ok(cycle)
}

// An edge, with why it is there.
fn link_of(links: &[Link], line: Line) -> Link {
    if let Some(place) = line.link {
        if let Some(link) = links.get(place as usize) {
            return *link;
        }
    }
    let why = if line.past {
        LinkReason::ChosenPast(line.literal)
    } else {
        LinkReason::Chosen(line.literal)
    };
    Link {
        from: line.from,
        to: line.to,
        why,
    }
}

// Notes the orders that were found and that a cycle uses.
fn note_clash(
    alloc: Global,
    used: &mut [bool],
    links: &[Link],
    clash: &Clash,
) -> Result<(), AllocError> {
    if let Clash::Cycle(lines) = clash {
        let cycle = links_of(alloc, links, lines.as_slice())?;
        note_used(used, cycle.as_slice());
    }
    Ok(())
}

// The orders that were found and that these clauses use.
fn used_by(
    alloc: Global,
    finds: &Finds<'_>,
    clauses: &[Learned],
    told: &[u32],
    last: &Learned,
) -> Result<Vec<bool>, AllocError> {
    let mut used = vec![in alloc; false; finds.found.len()]?;
    let links = finds.web.links.as_slice();
    note_clash(alloc, used.as_mut_slice(), links, &last.clash)?;
    for i in 0..told.len() {
        if let Some(learned) = clauses.get(told[i] as usize) {
            note_clash(alloc, used.as_mut_slice(), links, &learned.clash)?;
        }
    }
    Ok(used)
}

// What is told of a clause.
#[derive(Drop)]
struct Telling {
    hints: Vec<Hint>,
    trail: Trail,
}

impl Book<'_> {
    // The order that a literal says.
    fn order_of(&self, literal: u32) -> WriteOrder {
        let none = WriteOrder {
            key: 0,
            first: 0,
            second: 0,
        };
        let Some((one, other)) = self.pair_of(literal) else {
            return none;
        };
        let (first, second) = if literal % 2 == 0 {
            (one.last, other.first)
        } else {
            (other.first, one.last)
        };
        WriteOrder {
            key: one.key,
            first,
            second,
        }
    }

    // The chains of a literal's pair.
    fn pair_of(&self, literal: u32) -> Option<(Loose, Loose)> {
        let (one, other) = self.pairs?.ends(literal)?;
        let first = self.loose.get(one as usize)?;
        let second = self.loose.get(other as usize)?;
        Some((*first, *second))
    }

    // Adds a literal that is known, behind so many.
    fn add_chosen(&mut self, facts: usize, literal: u32) -> Result<(), AllocError> {
        let place = number(facts.saturating_add(self.chosen.len()));
        self.chosen.push(Chosen { literal, place })?;
        Ok(())
    }

    // The round of an order and its opposite, which both are known.
    fn both(&self, alloc: Global, literal: u32) -> Result<Trail, AllocError> {
        let mut trail = Trail::new(alloc);
        let even = literal - literal % 2;
        let Some((one, other, place)) = self.chosen(even) else {
            return Ok(trail);
        };
        let Some((_, _, odd)) = self.chosen(opposite(even)) else {
            return Ok(trail);
        };
        let (from, to) = (one.last, other.first);
        let forth = Ground::Written(Behind::Known(place, last_of(one), first_of(other)));
        let back = Ground::Written(Behind::Known(odd, first_of(other), last_of(one)));
        trail.push(from, EdgeKind::Ww, Some(one.key), to, forth)?;
        trail.push(to, EdgeKind::Ww, Some(one.key), from, back)?;
        Ok(trail)
    }
}

// What is left of a clause.
fn hint_of(book: &Book<'_>, told: &Told, left: Left) -> Hint {
    Hint {
        lemma: told.number(left.clause),
        order: book.order_of(left.literal),
    }
}

// The first literal of a clause.
fn first_literal(clauses: &[Learned], clause: u32) -> u32 {
    match clauses.get(clause as usize) {
        Some(learned) => match learned.literals.first() {
            Some(literal) => *literal,
            None => 0,
        },
        None => 0,
    }
}

// Adds what is left of a clause, one after the other.
fn add_hints(
    alloc: Global,
    book: &mut Book<'_>,
    told: &Told,
    facts: usize,
    lefts: &[Left],
) -> Result<Vec<Hint>, AllocError> {
    let mut hints = Vec::new(alloc);
    for i in 0..lefts.len() {
        hints.push(hint_of(book, told, lefts[i]))?;
        book.add_chosen(facts, lefts[i].literal)?;
    }
    Ok(hints)
}

// What is told of a clause, behind so many orders that were found.
fn telling_of(
    alloc: Global,
    book: &mut Book<'_>,
    told: &Told,
    versions: &Versions,
    finds: &Finds<'_>,
    clauses: &[Learned],
    facts: usize,
    learned: &Learned,
) -> Result<Telling, AllocError>
    requires { IsRecorded versions.now.recorded }
{
    book.chosen.clear();
    for i in 0..learned.literals.len() {
        book.add_chosen(facts, opposite(learned.literals[i]))?;
    }
    let mut hints = add_hints(alloc, book, told, facts, learned.hints.as_slice())?;
    let trail = match &learned.clash {
        Clash::Clause(clause) => {
            let literal = first_literal(clauses, *clause);
            let left = Left {
                clause: *clause,
                literal,
            };
            hints.push(hint_of(book, told, left))?;
            book.add_chosen(facts, literal)?;
            book.both(alloc, literal)?
        }
        Clash::Cycle(lines) => {
            let links = links_of(alloc, finds.web.links.as_slice(), lines.as_slice())?;
            let round = from_transaction(alloc, links.as_slice(), book.txns)?;
            trail_of(alloc, book, versions, round.as_slice())?
        }
    };
    Ok(Telling { hints, trail })
}

// The orders of literals.
fn clause_of(
    alloc: Global,
    book: &Book<'_>,
    literals: &[u32],
) -> Result<Vec<WriteOrder>, AllocError> {
    let mut clause = Vec::new(alloc);
    for i in 0..literals.len() {
        clause.push(book.order_of(literals[i]))?;
    }
    Ok(clause)
}

// The clauses that are told.
fn lemmas_of(
    alloc: Global,
    book: &mut Book<'_>,
    told: &Told,
    versions: &Versions,
    finds: &Finds<'_>,
    clauses: &[Learned],
    facts: usize,
) -> Result<Vec<Lemma>, AllocError>
    requires { IsRecorded versions.now.recorded }
{
    let mut lemmas = Vec::new(alloc);
    for i in 0..told.clauses.len() {
        let Some(learned) = clauses.get(told.clauses[i] as usize) else {
            continue;
        };
        let telling = telling_of(alloc, book, told, versions, finds, clauses, facts, learned)?;
        lemmas.push(Lemma {
            clause: clause_of(alloc, book, learned.literals.as_slice())?,
            hints: telling.hints,
            round: telling.trail.steps,
            grounds: telling.trail.grounds,
        })?;
    }
    Ok(lemmas)
}

/// The refutation of a search that ends with an empty clause.
pub(crate) fn refutation_by<'a>(
    alloc: Global,
    finds: &'a Finds<'a>,
    versions: &Versions,
    txns: u32,
    by_node: &Lists,
    solver: &'a Solver<'a>,
    last: &Learned,
) -> Result<Option<Refutation>, AllocError>
    requires { IsRecorded versions.now.recorded }
{
    let clauses = solver.clauses.as_slice();
    let told = told_of(alloc, clauses, last)?;
    let used = used_by(alloc, finds, clauses, told.clauses.as_slice(), last)?;
    let Some(shown) = all_shown(alloc, finds, by_node, used)? else {
        return Ok(None);
    };
    let shown = shown.as_slice();
    let mut book = Book {
        txns,
        loose: finds.loose,
        found: finds.found.as_slice(),
        places: places_of(alloc, shown, finds.found.len())?,
        pairs: Some(&solver.pairs),
        chosen: Vec::new(alloc),
    };
    let facts = settled_of(alloc, &book, versions, shown)?;
    let count = facts.len();
    let lemmas = lemmas_of(alloc, &mut book, &told, versions, finds, clauses, count)?;
    let end = telling_of(
        alloc, &mut book, &told, versions, finds, clauses, count, last,
    )?;
    Ok(Some(Refutation {
        facts,
        lemmas,
        hints: end.hints,
        last: end.trail.steps,
        grounds: end.trail.grounds,
    }))
}
