//! The write buffer: keys in the order in which they were first touched.
ghost use Rattle.std.specs.Prelude.{◌≡◌, ◌<◌, ◌≤◌, ℕ, true, false, not, length, is_some, IfOk, IfErr, IfSome, IfNone, OnOk, OnErr, max, option_map, bytes_eq};
ghost use Rattle.tx_machine.specs.Keys.{IsDistinct};
ghost use Rattle.tx_types.specs.declared.mutation.Mode.TheVariants.{Async};
ghost use Rattle.tx_transaction.specs.Buffers.{key_at, mutation_in, progress_at, with_progress, first_index, wants, is_full, is_known, not_empty, changes_of, touched, buffered, put_over, insert_over, inserted, has_two_phase_lock, async_minimum, promised, is_zero};
ghost use Rattle.tx_transaction.specs.Sessions.{others_at, sent_by, marked_by};

use crate::answers::mark_sent;
use crate::key_entries::KeyEntries;
use crate::settled::wants_more;
use crate::state::{Phase, Progress};
use std::alloc::Global;
use tx_core::Answer;
use tx_types::limits::MAX_KEYS;
use tx_types::{Change, Changes, Fault, Key, Mutation, Secondaries, Ts, Value};

pub(crate) type Buffer = KeyEntries;

/// Whether the key would be one too many.
pub(crate) fn is_full(buffer: &Buffer, key: &Key) -> bool
    ensures { result ≡ is_full buffer.now key.now }
{
    buffer.len() >= MAX_KEYS && find(buffer, key).is_none()
}

/// Sets a key's mutation, and forgets what was answered for it.
pub(crate) fn touch(buffer: &mut Buffer, key: Key, mutation: Mutation) -> Result<(), Fault>
    ensures ok { OnOk result (buffer.new ≡ touched buffer.old key mutation) }
    ensures same { OnErr result (buffer.new ≡ buffer.old) }
    ensures err { IfErr result (λ e. e ≡ Fault.OutOfMemory) }
{
    buffer.touch(key, mutation)
}

/// What is done to a key, where it is in the buffer.
pub(crate) fn find<'a>(buffer: &'a Buffer, key: &Key) -> Option<&'a Mutation>
    ensures { option_map (λ m. m.now) result ≡ buffered buffer.now key.now }
{
    buffer.find(key)
}

/// What an insert of a key enters: an insert, and over a delete a put; nothing over a put or an
/// insert.
pub(crate) fn insert_over(buffer: &Buffer, key: &Key, value: Value) -> Option<Mutation>
    ensures { result ≡ insert_over (buffered buffer.now key.now) value }
{
    match find(buffer, key) {
        None | Some(Mutation::Lock) => Some(Mutation::Insert(value)),
        Some(Mutation::Delete) => Some(Mutation::Put(value)),
        Some(Mutation::Put(_) | Mutation::Insert(_)) => None,
    }
}

// Whether the key at an index has these bytes.
fn is_at(buffer: &Buffer, i: usize, key: &[u8]) -> bool
    requires { i < length buffer.now }
    ensures { result ≡ bytes_eq (key_at buffer.now i) key.now }
{
    match buffer.get_index(i) {
        Some((k, _)) => k.as_bytes() == key,
        None => unreachable!(),
    }
}

// What is done to the key at an index.
fn mutation_at(buffer: &Buffer, i: usize) -> &Mutation
    requires { i < length buffer.now }
    ensures { result.now ≡ mutation_in buffer.now i }
{
    match buffer.get_index(i) {
        Some((_, entry)) => &entry.mutation,
        None => unreachable!(),
    }
}

// What is done to the key of these bytes, where it is in the buffer.
fn seek<'a>(buffer: &'a Buffer, key: &[u8]) -> Option<&'a Mutation>
    ensures { option_map (λ m. m.now) result ≡ buffered buffer.now key.now }
{
    for i in 0..buffer.len() {
        if is_at(buffer, i, key) {
            return Some(mutation_at(buffer, i));
        }
    }
    None
}

/// Whether a read of the key of these bytes is answered from the buffer.
pub(crate) fn is_known(buffer: &Buffer, key: &[u8]) -> bool
    ensures { result ≡ is_known (buffered buffer.now key.now) }
{
    match seek(buffer, key) {
        Some(mutation) => mutation.is_visible(),
        None => false,
    }
}

/// Whether the key of these bytes is there or would not be one too many.
pub(crate) fn has_room(buffer: &Buffer, key: &[u8]) -> bool
    ensures { result ≡ not (is_full buffer.now key.now) }
{
    buffer.len() < MAX_KEYS || seek(buffer, key).is_some()
}

/// Whether the buffer has no value of the key of these bytes, so that it may be inserted.
pub(crate) fn can_insert(buffer: &Buffer, key: &[u8]) -> bool
    ensures { (value : Value) → result ≡ is_some (inserted buffer.now key.now value) }
{
    match seek(buffer, key) {
        Some(Mutation::Put(_) | Mutation::Insert(_)) => false,
        _ => true,
    }
}

// The index of the first key between two indexes of which the phase has something left to send.
fn index_between(buffer: &Buffer, phase: Phase, from: usize, to: usize) -> Option<usize>
    requires { to ≤ length buffer.now }
    ensures found { IfSome result (λ i. (i < to) × (wants phase (progress_at buffer.now i) ≡ true)
        × ((k : ℕ) → from ≤ k → k < i → wants phase (progress_at buffer.now k) ≡ false)) }
    ensures absent { IfNone result ((k : ℕ) → from ≤ k → k < to
        → wants phase (progress_at buffer.now k) ≡ false) }
{
    for i in from..to {
        if wants_more(phase, progress_of(buffer, i)) {
            return Some(i);
        }
    }
    None
}

/// The index of the first key of which the phase has something left to send.
pub(crate) fn index_of(buffer: &Buffer, phase: Phase) -> Option<usize>
    ensures index { result ≡ first_index phase buffer.now }
    ensures within { IfSome result (λ i. i < length buffer.now) }
{
    let (from, to) = buffer.settled(phase);
    if let Some(i) = index_between(buffer, phase, 0, from) {
        return Some(i);
    }
    index_between(buffer, phase, to, buffer.len())
}

/// The key at an index.
pub(crate) fn key_at(buffer: &Buffer, i: usize) -> &Key
    requires { i < length buffer.now }
    ensures { result.now ≡ key_at buffer.now i }
{
    match buffer.get_index(i) {
        Some((key, _)) => key,
        None => unreachable!(),
    }
}

/// A copy of the key at an index.
pub(crate) fn key_of(buffer: &Buffer, i: usize) -> Result<Key, Fault>
    requires { i < length buffer.now }
    ensures ok { IfOk result (λ k. k ≡ key_at buffer.now i) }
    ensures err { IfErr result (λ e. e ≡ Fault.OutOfMemory) }
{
    match buffer.get_index(i) {
        Some((key, _)) => key.clone(),
        None => unreachable!(),
    }
}

/// A copy of the mutation at an index.
pub(crate) fn mutation_of(buffer: &Buffer, i: usize) -> Result<Mutation, Fault>
    requires { i < length buffer.now }
    ensures ok { IfOk result (λ m. m ≡ mutation_in buffer.now i) }
    ensures err { IfErr result (λ e. e ≡ Fault.OutOfMemory) }
{
    match buffer.get_index(i) {
        Some((_, entry)) => entry.mutation.clone(),
        None => unreachable!(),
    }
}

pub(crate) fn progress_of(buffer: &Buffer, i: usize) -> Progress
    requires { i < length buffer.now }
    ensures { result ≡ progress_at buffer.now i }
{
    match buffer.get_index(i) {
        Some((_, entry)) => entry.progress,
        None => unreachable!(),
    }
}

/// Notes what was sent and answered for the key at an index.
pub(crate) fn note(buffer: &mut Buffer, i: usize, phase: Phase, answer: &Answer)
    requires { i < length buffer.old }
    ensures { buffer.new ≡ with_progress buffer.old i
        (marked_by phase answer.now (sent_by phase (progress_at buffer.old i))) }
{
    buffer.mark(phase, i, answer);
}

/// Notes that a request was sent for the key at an index.
pub(crate) fn note_sent(buffer: &mut Buffer, i: usize, phase: Phase)
    requires { i < length buffer.old }
    ensures { buffer.new ≡ with_progress buffer.old i
        (sent_by phase (progress_at buffer.old i)) }
{
    let mut progress = progress_of(buffer, i);
    mark_sent(phase, &mut progress);
    buffer.set_progress(phase, i, progress);
}

pub(crate) fn has_keys(buffer: &Buffer) -> bool
    ensures { result ≡ not_empty buffer.now }
{
    !buffer.is_empty()
}

/// The write set.
pub(crate) fn changes_in(alloc: Global, buffer: &Buffer) -> Result<Changes, Fault>
    ensures all { IfOk result (λ c. c ≡ changes_of buffer.now) }
    ensures distinct { OnOk result (IsDistinct (changes_of buffer.now)) }
    ensures err { IfErr result (λ e. e ≡ Fault.OutOfMemory) }
{
    let mut changes = Changes::new(alloc);
    for i in 0..buffer.len() {
        let key = key_of(buffer, i)?;
        let mutation = mutation_of(buffer, i)?;
        changes.push(Change { key, mutation })?;
    }
    Ok(changes)
}

/// All keys but the first.
pub(crate) fn other_keys(alloc: Global, buffer: &Buffer) -> Result<Secondaries, Fault>
    requires { length buffer.now ≤ 256 }
    ensures ok { IfOk result (λ keys. keys ≡ others_at Async buffer.now 0) }
    ensures err { IfErr result (λ e. e ≡ Fault.OutOfMemory) }
{
    let mut keys = Secondaries::new(alloc);
    for i in 1..buffer.len() {
        keys.push(key_of(buffer, i)?)?;
    }
    Ok(keys)
}

fn is_two_phase(progress: Progress) -> bool
    ensures { result ≡ is_zero progress.accepted }
{
    progress.accepted == Some(Ts::ZERO)
}

/// Whether some key has a two-phase lock.
pub(crate) fn has_two_phase_lock(buffer: &Buffer) -> bool
    ensures { result ≡ has_two_phase_lock buffer.now }
{
    for i in 0..buffer.len() {
        if is_two_phase(progress_of(buffer, i)) {
            return true;
        }
    }
    false
}

// The minimum of an async lock.
fn async_minimum(progress: Progress) -> Option<Ts>
    ensures { result ≡ async_minimum progress.accepted }
{
    match progress.accepted {
        Some(minimum) if minimum > Ts::ZERO => Some(minimum),
        _ => None,
    }
}

fn later(a: Ts, b: Ts) -> Ts
    ensures { result ≡ max a b }
{
    if a < b { b } else { a }
}

/// The greatest minimum, where each key has an async lock. The last key is asked first: it mostly
/// is the last to have one, so that the others are walked once.
pub(crate) fn promised(buffer: &Buffer) -> Option<Ts>
    ensures { result ≡ promised buffer.now }
{
    let len = buffer.len();
    if len == 0 {
        return None;
    }
    async_minimum(progress_of(buffer, len - 1))?;
    let mut greatest = Ts::ZERO;
    for i in 0..len {
        let Some(minimum) = async_minimum(progress_of(buffer, i)) else {
            return None;
        };
        greatest = later(greatest, minimum);
    }
    Some(greatest)
}
