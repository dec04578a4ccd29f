//! What a session does by itself.
ghost use Rattle.std.specs.Prelude.{◌≡◌, option_map};
ghost use Rattle.tx_text.specs.Parts.{parts_items};
ghost use Rattle.tx_steps.specs.Steps.{acted, op_said, put_said, insert_said, mode_said, max_said, declare_said, last_of};

use crate::members::{last_number, last_text, none_left, text, within};
use crate::word::Word;
use tx_text::Part;
use tx_types::Mode;
use tx_types::limits::MAX_TTL;

/// What a session does by itself.
#[derive(Clone, Copy, Debug, Drop)]
pub enum Op<S> {
    /// A put of a key and its value enters the buffer.
    Put(S, S),
    /// An insert of a key and its value enters it, unless it puts or inserts the key already.
    Insert(S, S),
    /// A delete of a key enters it.
    Delete(S),
    /// A lock of a key enters it.
    Lock(S),
    /// The buffer is fixed: how its transaction commits, how long its locks live, in ticks, and the
    /// greatest timestamp that an async commit may take; none is no bound.
    Declare(Mode, u32, Option<u64>),
    /// Its commit timestamp is drawn.
    Draw,
    /// It answers its outcome, and is gone.
    Finish,
    /// It leaves its transaction as it is, and is gone.
    Stop,
    /// The last lock that stood in its way is resolved, at this timestamp.
    Resolve(u64),
}

fn put<'a>(members: &[Part<'a>]) -> Option<Op<&'a str>>
    ensures { option_map acted result ≡ put_said (parts_items members.now) }
{
    let (key, rest) = text(members)?;
    Some(Op::Put(key, last_text(rest)?))
}

fn insert<'a>(members: &[Part<'a>]) -> Option<Op<&'a str>>
    ensures { option_map acted result ≡ insert_said (parts_items members.now) }
{
    let (key, rest) = text(members)?;
    Some(Op::Insert(key, last_text(rest)?))
}

pub(crate) fn mode_of(word: &str) -> Option<Mode>
    ensures { result ≡ mode_said word.now }
{
    if word == "two-phase" {
        Some(Mode::TwoPhase)
    } else if word == "async" {
        Some(Mode::Async)
    } else {
        None
    }
}

// The greatest timestamp of an async commit, where one is told.
fn max_commit(mode: Mode, members: &[Part<'_>]) -> Option<Option<u64>>
    ensures { result ≡ max_said mode (parts_items members.now) }
{
    if none_left(members) {
        return Some(None);
    }
    match mode {
        Mode::TwoPhase => None,
        Mode::Async => Some(Some(last_number(members)?)),
    }
}

#[inline(never)]
fn declare<'a>(members: &[Part<'a>]) -> Option<Op<&'a str>>
    ensures { option_map acted result ≡ declare_said (parts_items members.now) }
{
    let (word, rest) = text(members)?;
    let mode = mode_of(word)?;
    let (ttl, rest) = within(0, MAX_TTL, rest)?;
    Some(Op::Declare(mode, ttl, max_commit(mode, rest)?))
}

// An operation that nothing more is told of.
fn alone<'a>(op: Op<&'a str>, members: &[Part<'a>]) -> Option<Op<&'a str>>
    ensures { option_map acted result ≡ last_of (acted op.entry, parts_items members.now) }
{
    if none_left(members) { Some(op) } else { None }
}

/// The operation of a word, by the members after the session's name.
pub(crate) fn op_of<'a>(word: Word, members: &[Part<'a>]) -> Option<Op<&'a str>>
    ensures { option_map acted result ≡ op_said word (parts_items members.now) }
{
    match word {
        Word::Put => put(members),
        Word::Insert => insert(members),
        Word::Delete => Some(Op::Delete(last_text(members)?)),
        Word::Lock => Some(Op::Lock(last_text(members)?)),
        Word::Declare => declare(members),
        Word::Draw => alone(Op::Draw, members),
        Word::Finish => alone(Op::Finish, members),
        Word::Stop => alone(Op::Stop, members),
        Word::Resolve => Some(Op::Resolve(last_number(members)?)),
        _ => None,
    }
}
