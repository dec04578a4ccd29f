//! The chains of all keys, in an order of what nobody saw.

use crate::plan::{ChainPlan, Chains, Follows, end_chain, take_from, take_list, take_put};
use crate::puts::{Put, Puts, list_at, number, put_at};
use std::alloc::{AllocError, Global};
use tx_recording::Recording;
use tx_verdict::Case;

/// What chains are made of.
#[derive(Drop)]
pub struct ChainParts {
    pub puts: Puts,
    pub follows: Follows,
    /// By key: the view with most values.
    pub longest: Vec<Option<u32>>,
}

/// The puts of which nobody knows what they follow, by key.
#[derive(Drop)]
pub struct Extras {
    first: Vec<Option<u32>>,
    next: Vec<Option<u32>>,
    /// By key: whether there are two or more.
    pub many: Vec<bool>,
    /// By key: one that follows what another one follows in the order that is known.
    left: Vec<Option<u32>>,
}

/// Which puts of those that nobody knows the place of go into the chains of their keys.
#[derive(Clone, Copy)]
pub enum Asked<'a> {
    /// All.
    All,
    /// By key one of them, where there are two or more, and what follows it.
    First(&'a [Option<u32>]),
}

// The put that a table has of a key.
fn first_in(first: &[Option<u32>], key: u32) -> Option<u32> {
    let put = first.get(key as usize)?;
    *put
}

// Takes what is known of the order of a key.
fn take_key(
    chains: &mut Chains,
    case: &Case<'_>,
    parts: &ChainParts,
    key: u32,
) -> Result<(), AllocError> {
    let before = chains.plan.members.len();
    if let Some(Some(view)) = parts.longest.get(key as usize) {
        if (*view as usize) < case.views.len() {
            let list = list_at(case.recording, case.views[*view as usize].span);
            let by_value = parts.puts.by_value.as_slice();
            take_list(chains, by_value, list, *view)?;
        }
    }
    let start = chains.start(parts, before, key);
    take_from(chains, parts.puts.all.as_slice(), &parts.follows, start)
}

// Notes a put that nothing is known of.
fn note_extra(extras: &mut Extras, puts: &[Put], used: &[bool], place: u32) {
    let Some(put) = puts.get(place as usize) else {
        return;
    };
    if put.view.is_some() || used.get(place as usize) != Some(&false) {
        return;
    }
    let Some(first) = extras.first.get(put.key as usize) else {
        return;
    };
    let first = *first;
    if first.is_some() {
        put_at(extras.many.as_mut_slice(), put.key as usize, true);
    }
    put_at(extras.next.as_mut_slice(), place as usize, first);
    put_at(extras.first.as_mut_slice(), put.key as usize, Some(place));
}

// The puts that nothing is known of, in an order.
fn extras_of(
    alloc: Global,
    recording: &Recording,
    puts: &[Put],
    used: &[bool],
    order: &[u32],
) -> Result<Extras, AllocError> {
    let mut extras = Extras {
        first: vec![in alloc; None; recording.keys as usize]?,
        next: vec![in alloc; None; puts.len()]?,
        many: vec![in alloc; false; recording.keys as usize]?,
        left: vec![in alloc; None; recording.keys as usize]?,
    };
    for i in 0..order.len() {
        note_extra(&mut extras, puts, used, order[order.len() - 1 - i]);
    }
    Ok(extras)
}

// Takes the extras of a key into one chain, or each into its own.
fn take_extras(
    chains: &mut Chains,
    parts: &ChainParts,
    extras: &Extras,
    key: u32,
    apart: bool,
) -> Result<(), AllocError> {
    let Some(first) = extras.first.get(key as usize) else {
        return Ok(());
    };
    let mut at = *first;
    for _ in 0..parts.puts.all.len() {
        let Some(place) = at else {
            return Ok(());
        };
        take_from(
            chains,
            parts.puts.all.as_slice(),
            &parts.follows,
            Some(place),
        )?;
        if apart {
            end_chain(&mut chains.plan, key)?;
        }
        at = extras.after(place);
    }
    Ok(())
}

// Notes of each key a put that is not used yet.
fn note_left(extras: &mut Extras, puts: &[Put], used: &[bool]) {
    for place in 0..puts.len() {
        if used.get(place) == Some(&false) {
            put_at(
                extras.left.as_mut_slice(),
                puts[place].key as usize,
                Some(number(place)),
            );
        }
    }
}

impl Extras {
    // The put of a key that is left.
    fn left_of(&self, key: u32) -> Option<u32> {
        let left = self.left.get(key as usize)?;
        *left
    }

    // The extra after one.
    fn after(&self, place: u32) -> Option<u32> {
        let next = self.next.get(place as usize)?;
        *next
    }

    /// Whether some key has two or more.
    pub fn are_open(&self) -> bool {
        self.many.iter().any(|many| *many)
    }

    /// Whether a key has two or more.
    pub fn is_open(&self, key: u32) -> bool {
        self.many.get(key as usize) == Some(&true)
    }

    // The transactions of the first two of a key, where it has two.
    pub fn pair_of(&self, puts: &[Put], key: u32) -> Option<(u32, u32)> {
        let first = self.first.get(key as usize)?;
        let one = (*first)?;
        let other = self.after(one)?;
        let one = puts.get(one as usize)?;
        let other = puts.get(other as usize)?;
        Some((one.txn, other.txn))
    }
}

// Takes of the extras of a key those that are asked for, and the only one in any case.
fn take_asked(
    chains: &mut Chains,
    parts: &ChainParts,
    extras: &Extras,
    key: u32,
    asked: Asked,
) -> Result<(), AllocError> {
    match asked {
        Asked::First(first) if extras.is_open(key) => {
            let puts = parts.puts.all.as_slice();
            take_from(chains, puts, &parts.follows, first_in(first, key))
        }
        Asked::All | Asked::First(_) => take_extras(chains, parts, extras, key, false),
    }
}

// Takes the chain of each key: with the put that is left, else with the extras that are asked for.
fn take_keys(
    chains: &mut Chains,
    case: &Case<'_>,
    parts: &ChainParts,
    extras: &Extras,
    asked: Asked,
) -> Result<(), AllocError> {
    for key in 0..case.recording.keys {
        take_key(chains, case, parts, key)?;
        if let Some(left) = extras.left_of(key) {
            take_put(chains, parts.puts.all.as_slice(), left)?;
        } else {
            take_asked(chains, parts, extras, key, asked)?;
        }
        end_chain(&mut chains.plan, key)?;
    }
    Ok(())
}

// Takes the extras of open keys, each into a chain of its own.
fn take_open(
    chains: &mut Chains,
    recording: &Recording,
    parts: &ChainParts,
    extras: &Extras,
) -> Result<(), AllocError> {
    for key in 0..recording.keys {
        if extras.is_open(key) || extras.left_of(key).is_some() {
            take_extras(chains, parts, extras, key, true)?;
        }
    }
    Ok(())
}

// Takes what is left, each into a chain of its own.
fn take_rest(chains: &mut Chains, puts: &[Put]) -> Result<(), AllocError> {
    for place in 0..puts.len() {
        if take_put(chains, puts, number(place))? {
            end_chain(&mut chains.plan, puts[place].key)?;
        }
    }
    Ok(())
}

// Takes what is known of the order of each key. What was taken.
fn known_puts(alloc: Global, case: &Case<'_>, parts: &ChainParts) -> Result<Chains, AllocError> {
    let mut chains = Chains::new(alloc, parts.puts.all.len())?;
    for key in 0..case.recording.keys {
        take_key(&mut chains, case, parts, key)?;
    }
    Ok(chains)
}

/// The chains, with what nobody knows of in this order; and what nobody knows of. Those of the keys
/// come first. Where one lacks what may come in two orders, this has chains of its own.
pub fn plan_of(
    alloc: Global,
    case: &Case<'_>,
    parts: &ChainParts,
    order: &[u32],
    asked: Asked,
) -> Result<(ChainPlan, Extras), AllocError> {
    let recording = case.recording;
    let mut known = known_puts(alloc, case, parts)?;
    let puts = parts.puts.all.as_slice();
    let mut extras = extras_of(alloc, recording, puts, known.used.as_slice(), order)?;
    for key in 0..recording.keys {
        take_extras(&mut known, parts, &extras, key, false)?;
    }
    note_left(&mut extras, puts, known.used.as_slice());
    let mut chains = Chains::new(alloc, puts.len())?;
    take_keys(&mut chains, case, parts, &extras, asked)?;
    take_open(&mut chains, recording, parts, &extras)?;
    take_rest(&mut chains, puts)?;
    Ok((chains.plan, extras))
}
