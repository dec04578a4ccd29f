//! Slots: each has a free seat or a live session.
ghost use Rattle.std.specs.Prelude.{◌≡◌, ◌<◌, ℕ, List, length, map, slice_get, slice_set, Some, bytes_eq, IfNone, IfSome, OnOk, OnErr};
ghost use Rattle.std.specs.Map.{update};
ghost use Rattle.std.specs.BTreeMap.{get_by_text};
ghost use Rattle.tx_journal.specs.Known.{Known};
ghost use Rattle.tx_client.specs.Calls.{Seated};
ghost use Rattle.tx_engine.specs.declared.slots.SessionSlot.TheVariants as session_slot;
ghost use Rattle.tx_engine.specs.Semantics.{first_free as first_of};
ghost use Rattle.tx_engine.specs.Slots.{slot_of, NamesNone};

use std::alloc::{AllocError, Global};
use std::collections::BTreeMap;
use std::mem;
use tx_client::Session;
use tx_journal::{JournalId, Seat};

/// What a slot has: a free seat, or a live session, or neither while one of them acts.
#[derive(Drop)]
pub enum SessionSlot<F, L> {
    /// A seat, for the next session that begins here.
    Free(F),
    /// A session that has begun, and neither finished nor stopped.
    Live(L),
    /// What was here acts, and comes back before the step ends.
    Lent,
}

/// Puts something in a slot, and gives what was there.
pub(crate) fn swap_slot<T>(slots: &mut Vec<T>, k: usize, slot: T) -> T
    requires { k < length slots.old.items }
    ensures value { slice_get slots.old.items k ≡ Some result }
    ensures after { slots.new.items ≡ slice_set slots.old.items k slot }
{
    mem::replace(&mut slots[k], slot)
}

/// The first slot that is free.
pub(crate) fn first_free<J: JournalId>(slots: &[SessionSlot<Seat<J>, Session<J>>]) -> Option<usize>
    ensures first { result ≡ first_of (map slot_of slots.now) }
    ensures free { IfSome result (λ k. (s : Known) × (slice_get slots.now k ≡ Some (session_slot.Free s))) }
{
    let mut k = 0;
    'session_slot: for slot in slots {
        if let SessionSlot::Free(_) = slot {
            return Some(k);
        }
        k += 1;
    }
    None
}

/// The slot of a name, where it has one.
pub(crate) fn slot_at<J: JournalId>(
    names: &BTreeMap<String, usize>,
    slots: &[SessionSlot<Seat<J>, Session<J>>],
    name: &str,
) -> Option<usize>
    ensures some { IfSome result (λ k. (get_by_text names.now name.now ≡ Some k) × (k < length slots.now)) }
    ensures none { IfNone result (NamesNone J.bounds names.now slots.now name.now) }
{
    let Some(&k) = names.get(name) else {
        return None;
    };
    if k >= slots.len() {
        return None;
    }
    Some(k)
}

/// The slot of the live session of a name, where it is one.
#[inline(always)]
pub(crate) fn live_slot<J: JournalId>(
    names: &BTreeMap<String, usize>,
    slots: &[SessionSlot<Seat<J>, Session<J>>],
    name: &str,
) -> Option<usize>
    ensures named { IfSome result (λ k. get_by_text names.now name.now ≡ Some k) }
    ensures live { IfSome result (λ k. (k < length slots.now)
        × (s : Seated) × (slice_get slots.now k ≡ Some (session_slot.Live s))) }
    ensures none { IfNone result (NamesNone J.bounds names.now slots.now name.now) }
{
    let k = slot_at(names, slots, name)?;
    match slots[k] {
        SessionSlot::Live(_) => Some(k),
        _ => None,
    }
}

/// Enters the slot of a name.
pub(crate) fn enter(
    alloc: Global,
    names: &mut BTreeMap<String, usize>,
    name: &str,
    k: usize,
) -> Result<(), AllocError>
    ensures sets { OnOk result ((q : List ℕ) → get_by_text names.new q
        ≡ update bytes_eq (get_by_text names.old) name.now (Some k) q) }
    ensures same { OnErr result ((q : List ℕ) → get_by_text names.new q ≡ get_by_text names.old q) }
{
    let key = String::from_str(alloc, name)?;
    names.insert(key, k)?;
    Ok(())
}

/// The live session of a name, where it is one, leaves its slot, which is lent until `swap_slot`
/// gives it back.
#[inline(always)]
pub(crate) fn lend<J: JournalId>(
    names: &BTreeMap<String, usize>,
    slots: &mut Vec<SessionSlot<Seat<J>, Session<J>>>,
    name: &str,
) -> Option<(usize, Session<J>)>
    ensures named { IfSome result (λ x. (get_by_text names.now name.now ≡ Some x.0)
        × (slice_get slots.old.items x.0 ≡ Some (session_slot.Live x.1))) }
    ensures lent { IfSome result (λ x. (x.0 < length slots.new.items)
        × (slots.new.items ≡ slice_set slots.old.items x.0 session_slot.Lent)) }
    ensures none { IfNone result ((slots.new.items ≡ slots.old.items)
        × NamesNone J.bounds names.now slots.old.items name.now) }
{
    let k = live_slot(names, slots, name)?;
    let SessionSlot::Live(session) = swap_slot(slots, k, SessionSlot::Lent) else {
        unreachable!()
    };
    Some((k, session))
}
