//! In which order versions are taken.

use crate::chains::ChainParts;
use crate::puts::{Put, list_at, number, put_at};
use std::alloc::{AllocError, Global};
use tx_verdict::{Base, Case, LostUpdate};

/// Chains of what was put: each of a key, one version after the other.
#[derive(Drop)]
pub struct ChainPlan {
    /// Where each chain begins among the members, and where the last ends.
    pub heads: Vec<u32>,
    /// The key of each chain.
    pub names: Vec<u32>,
    pub members: Vec<ChainMember>,
}

/// A version of a chain.
#[derive(Clone, Copy)]
pub struct ChainMember {
    pub put: u32,
    pub base: Base,
}

/// The members of a chain.
pub(crate) fn members_of(plan: &ChainPlan, chain: usize) -> &[ChainMember] {
    if chain >= plan.heads.len() || chain + 1 >= plan.heads.len() {
        return &plan.members[0..0];
    }
    let from = plan.heads[chain] as usize;
    let upto = plan.heads[chain + 1] as usize;
    if from > upto || upto > plan.members.len() {
        return &plan.members[0..0];
    }
    &plan.members[from..upto]
}

/// The first member of a chain.
pub fn first_member(plan: &ChainPlan, chain: usize) -> Option<ChainMember> {
    let member = members_of(plan, chain).first()?;
    Some(*member)
}

// The put of a member.
fn put_in(puts: &[Put], member: ChainMember) -> Option<Put> {
    let put = puts.get(member.put as usize)?;
    Some(*put)
}

/// The first put of a chain.
pub fn first_put(plan: &ChainPlan, puts: &[Put], chain: usize) -> Option<Put> {
    put_in(puts, first_member(plan, chain)?)
}

/// The last put of a chain.
pub fn last_put(plan: &ChainPlan, puts: &[Put], chain: usize) -> Option<Put> {
    let member = members_of(plan, chain).last()?;
    put_in(puts, *member)
}

/// Which put follows which.
#[derive(Drop)]
pub struct Follows {
    /// By key: the one that saw nothing there.
    pub first: Vec<Option<u32>>,
    /// By value: the one that saw it last in its key.
    pub next: Vec<Option<u32>>,
    /// Two that saw the same.
    pub lost: Option<LostUpdate>,
}

// Notes what a put saw, in a table.
fn note_next(table: &mut [Option<u32>], place: usize, put: u32) -> Option<u32> {
    if place >= table.len() {
        return None;
    }
    let old = table[place];
    if old.is_none() {
        table[place] = Some(put);
    }
    old
}

// Notes what a put saw. One that saw the same, if there is one.
fn note_put(follows: &mut Follows, list: &[u32], key: u32, put: u32) -> Option<u32> {
    if list.is_empty() {
        return note_next(follows.first.as_mut_slice(), key as usize, put);
    }
    note_next(
        follows.next.as_mut_slice(),
        list[list.len() - 1] as usize,
        put,
    )
}

// The view of a put.
fn view_in(puts: &[Put], put: u32) -> Option<u32> {
    let found = puts.get(put as usize)?;
    found.view
}

// The values that a put saw, and their view.
fn seen_by<'a>(case: &Case<'a>, put: Put) -> Option<&'a [u32]> {
    let place = put.view? as usize;
    if place >= case.views.len() {
        return None;
    }
    Some(list_at(case.recording, case.views[place].span))
}

/// Which put follows which, by what they saw.
pub fn follows_of(alloc: Global, case: &Case<'_>, puts: &[Put]) -> Result<Follows, AllocError> {
    let mut follows = Follows {
        first: vec![in alloc; None; case.recording.keys as usize]?,
        next: vec![in alloc; None; case.recording.values as usize]?,
        lost: None,
    };
    for place in 0..puts.len() {
        let put = puts[place];
        let Some(list) = seen_by(case, put) else {
            continue;
        };
        let old = note_put(&mut follows, list, put.key, number(place));
        if let Some(before) = old {
            follows.lost = lost_by(puts, before, put);
        }
    }
    Ok(follows)
}

// The views of two puts.
fn lost_by(puts: &[Put], before: u32, put: Put) -> Option<LostUpdate> {
    let first = view_in(puts, before)?;
    let second = put.view?;
    Some(LostUpdate { first, second })
}

/// Members that are put into a plan once.
#[derive(Drop)]
pub(crate) struct Chains {
    pub plan: ChainPlan,
    pub used: Vec<bool>,
}

/// Ends a chain.
pub(crate) fn end_chain(plan: &mut ChainPlan, key: u32) -> Result<(), AllocError> {
    plan.names.push(key)?;
    plan.heads.push(number(plan.members.len()))?;
    Ok(())
}

// Takes a put, unless it is taken. Whether it was.
fn take(chains: &mut Chains, put: u32, base: Base) -> Result<bool, AllocError> {
    if chains.used.get(put as usize) != Some(&false) {
        return Ok(false);
    }
    put_at(chains.used.as_mut_slice(), put as usize, true);
    chains.plan.members.push(ChainMember { put, base })?;
    Ok(true)
}

/// Takes a put for what it saw, unless it is taken. Whether it was.
pub(crate) fn take_put(chains: &mut Chains, puts: &[Put], place: u32) -> Result<bool, AllocError> {
    let base = match view_in(puts, place) {
        Some(view) => Base::View(view),
        None => Base::Blind,
    };
    take(chains, place, base)
}

/// Takes a put, and what follows it.
pub(crate) fn take_from(
    chains: &mut Chains,
    puts: &[Put],
    follows: &Follows,
    start: Option<u32>,
) -> Result<(), AllocError> {
    let mut at = start;
    for _ in 0..puts.len() {
        let Some(place) = at else {
            return Ok(());
        };
        if !take_put(chains, puts, place)? {
            return Ok(());
        }
        at = next_of(puts, follows, place);
    }
    Ok(())
}

// What follows a put.
fn next_of(puts: &[Put], follows: &Follows, place: u32) -> Option<u32> {
    let put = puts.get(place as usize)?;
    let next = follows.next.get(put.last as usize)?;
    *next
}

/// Takes the puts whose values are read, in their order: what stands in front of each in the list
/// was there, whatever its own transaction read.
pub(crate) fn take_list(
    chains: &mut Chains,
    by_value: &[Option<u32>],
    list: &[u32],
    view: u32,
) -> Result<(), AllocError> {
    for place in 0..list.len() {
        let Some(Some(put)) = by_value.get(list[place] as usize) else {
            continue;
        };
        take(chains, *put, Base::Within(view, number(place)))?;
    }
    Ok(())
}

impl Chains {
    /// Nothing is taken of so many puts.
    pub(crate) fn new(alloc: Global, puts: usize) -> Result<Chains, AllocError> {
        let mut heads = Vec::new(alloc);
        heads.push(0)?;
        Ok(Chains {
            plan: ChainPlan {
                heads,
                names: Vec::new(alloc),
                members: Vec::new(alloc),
            },
            used: vec![in alloc; false; puts]?,
        })
    }

    /// The put that follows the last that was taken of a key, since there were so many.
    pub(crate) fn start(&self, parts: &ChainParts, before: usize, key: u32) -> Option<u32> {
        let count = self.plan.members.len();
        if count > before && count > 0 {
            let last = self.plan.members[count - 1];
            return next_of(parts.puts.all.as_slice(), &parts.follows, last.put);
        }
        let first = parts.follows.first.get(key as usize)?;
        *first
    }
}
