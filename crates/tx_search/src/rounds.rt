//! The refutation that a cycle stands on: the orders that it uses, each with its round.
ghost use Rattle.tx_history.specs.Records.{IsRecorded};

use crate::trail::{Book, trail_of};
use std::alloc::{AllocError, Global};
use tx_chains::{number, put_at};
use tx_verdict::{Refutation, Settled, Versions};
use tx_web::{ChainOrder, Finds, Link, LinkReason, Lists, Paths, ends_of, note_used};

// The edges that show an order that was found.
#[derive(Drop)]
pub(crate) struct Shown {
    found: u32,
    links: Vec<Link>,
}

/// The edges from the first that begins at a transaction on, round.
pub(crate) fn from_transaction(
    alloc: Global,
    links: &[Link],
    txns: u32,
) -> Result<Vec<Link>, AllocError> {
    let mut first = 0usize;
    'found: for i in 0..links.len() {
        if links[i].from / 2 < txns {
            first = i;
            break 'found;
        }
    }
    let mut round = Vec::new(alloc);
    if first < links.len() {
        round.extend_from_slice(&links[first..])?;
        round.extend_from_slice(&links[..first])?;
    }
    Ok(round)
}

// The edges that show an order that was found.
fn shown_of(
    alloc: Global,
    finds: &Finds<'_>,
    by_node: &Lists,
    place: u32,
    found: ChainOrder,
) -> Result<Option<Shown>, AllocError> {
    let Some((from, to)) = ends_of(&finds.web, finds.loose, found) else {
        return Ok(None);
    };
    let paths = Paths {
        web: &finds.web,
        by_node,
        below: found.upto,
    };
    let Some(mut links) = paths.way(alloc, from, to)? else {
        return Ok(None);
    };
    let why = if found.by_start {
        LinkReason::Opposite(place)
    } else {
        LinkReason::OppositePast(place)
    };
    links.push(Link {
        from: to,
        to: from,
        why,
    })?;
    Ok(Some(Shown {
        found: place,
        links,
    }))
}

/// The orders that are used, and those that they use, each with the edges that show it.
pub(crate) fn all_shown(
    alloc: Global,
    finds: &Finds<'_>,
    by_node: &Lists,
    mut used: Vec<bool>,
) -> Result<Option<Vec<Shown>>, AllocError> {
    let mut all = Vec::new(alloc);
    for i in 0..finds.found.len() {
        let place = finds.found.len() - 1 - i;
        if used.get(place) != Some(&true) {
            continue;
        }
        let found = finds.found[place];
        let Some(shown) = shown_of(alloc, finds, by_node, number(place), found)? else {
            return Ok(None);
        };
        note_used(used.as_mut_slice(), shown.links.as_slice());
        all.push(shown)?;
    }
    all.reverse();
    Ok(Some(all))
}

/// The refutation that a cycle stands on.
pub fn refutation_of<'a>(
    alloc: Global,
    finds: &'a Finds<'a>,
    versions: &Versions,
    txns: u32,
    by_node: &Lists,
    cycle: &[Link],
) -> Result<Option<Refutation>, AllocError>
    requires { IsRecorded versions.now.recorded }
{
    let mut used = vec![in alloc; false; finds.found.len()]?;
    note_used(used.as_mut_slice(), cycle);
    let Some(shown) = all_shown(alloc, finds, by_node, used)? else {
        return Ok(None);
    };
    let shown = shown.as_slice();
    let book = Book {
        txns,
        loose: finds.loose,
        found: finds.found.as_slice(),
        places: places_of(alloc, shown, finds.found.len())?,
        pairs: None,
        chosen: Vec::new(alloc),
    };
    let facts = settled_of(alloc, &book, versions, shown)?;
    let round = from_transaction(alloc, cycle, txns)?;
    let last = trail_of(alloc, &book, versions, round.as_slice())?;
    Ok(Some(Refutation {
        facts,
        lemmas: Vec::new(alloc),
        hints: Vec::new(alloc),
        last: last.steps,
        grounds: last.grounds,
    }))
}

/// By order that was found, its place among those that are told.
pub(crate) fn places_of(
    alloc: Global,
    shown: &[Shown],
    count: usize,
) -> Result<Vec<u32>, AllocError> {
    let mut places = vec![in alloc; 0u32; count]?;
    for i in 0..shown.len() {
        put_at(places.as_mut_slice(), shown[i].found as usize, number(i));
    }
    Ok(places)
}

/// The orders that are told, each with its round.
pub(crate) fn settled_of(
    alloc: Global,
    book: &Book<'_>,
    versions: &Versions,
    shown: &[Shown],
) -> Result<Vec<Settled>, AllocError>
    requires { IsRecorded versions.now.recorded }
{
    let mut facts = Vec::new(alloc);
    for i in 0..shown.len() {
        let trail = trail_of(alloc, book, versions, shown[i].links.as_slice())?;
        facts.push(Settled {
            order: book.order(shown[i].found),
            round: trail.steps,
            grounds: trail.grounds,
        })?;
    }
    Ok(facts)
}
