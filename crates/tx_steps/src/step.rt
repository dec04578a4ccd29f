//! The steps of a script, read from the members of a line.
ghost use Rattle.tx_steps.specs.Steps.{is_of};
ghost use Rattle.std.specs.Prelude.{◌≡◌, option_map, Some, None, if◌then◌else◌};
ghost use Rattle.tx_steps.specs.declared.word.Word.TheVariants as word;
ghost use Rattle.tx_text.specs.Parts.{parts_items};
ghost use Rattle.tx_steps.specs.Steps.{asked, any_said, step_said, said, acts_said, read_said, tick_said};

use crate::call::{Call, get, heartbeat, scan, sends};
use crate::delivery::Delivery;
use crate::members::{last_number, last_text, none_left, text, within};
use crate::op::{Op, op_of};
use crate::program::Program;
use crate::runs::{seed, transfers};
use crate::transfer::Transfer;
use crate::word::{Word, word_of};
use tx_text::Part;
use tx_types::limits::MAX_TICK;

/// A step, over texts: those of its line, or in specs their bytes. A session goes by its name. No
/// name, key or value has been looked at yet: only that it is a text.
#[derive(Clone, Copy, Debug, Drop)]
pub enum Step<S> {
    /// A transaction begins under a name.
    Begin(S),
    /// A session does this by itself.
    Act(S, Op<S>),
    /// A session sends this.
    Send(S, Call<S>, Delivery<S>),
    /// The request that is held under this name is taken again.
    Deliver(S),
    /// A read of a key at a timestamp, of no session.
    Read(S, u64),
    /// What the store has of a key.
    Versions(S),
    /// So many ticks are drawn: 1 to `MAX_TICK`.
    Tick(u32),
    /// Collection up to this safe point.
    Gc(u64),
    /// A transaction of its own puts this value on this key.
    Seed(S, S),
    /// A session moves an amount from one key to another, in a transaction of its own.
    Transfer(S, Transfer<S>),
}

impl Step<&str> {
    /// Whether the scripts of a program have it.
    pub fn is_of(&self, program: Program) -> bool
        ensures { result ≡ is_of program (asked self.now) }
    {
        match program {
            Program::Simulate => !matches!(self, Step::Seed(..) | Step::Transfer(..)),
            Program::Run => match self {
                Step::Send(_, _, delivery) => delivery.is_taken(),
                Step::Deliver(_)
                | Step::Read(..)
                | Step::Versions(_)
                | Step::Tick(_)
                | Step::Gc(_) => false,
                Step::Begin(_) | Step::Act(..) | Step::Seed(..) | Step::Transfer(..) => true,
            },
        }
    }
}

// Puts the step `begin` into `out`. A step is large: a result that has it would be
// copied at each return.
fn begin<'a>(members: &[Part<'a>], out: &mut Step<&'a str>) -> Option<()>
    ensures { option_map (λ _. asked out.new) result ≡ said word.Begin (parts_items members.now) }
{
    *out = Step::Begin(last_text(members)?);
    Some(())
}

// Puts the step `deliver` into `out`.
#[inline(never)]
fn deliver<'a>(members: &[Part<'a>], out: &mut Step<&'a str>) -> Option<()>
    ensures { option_map (λ _. asked out.new) result ≡ said word.Deliver (parts_items members.now) }
{
    *out = Step::Deliver(last_text(members)?);
    Some(())
}

// Puts the step `read` into `out`.
#[inline(never)]
fn read<'a>(members: &[Part<'a>], out: &mut Step<&'a str>) -> Option<()>
    ensures { option_map (λ _. asked out.new) result ≡ read_said (parts_items members.now) }
{
    let (key, rest) = text(members)?;
    *out = Step::Read(key, last_number(rest)?);
    Some(())
}

// Puts the step `versions` into `out`.
#[inline(never)]
fn versions<'a>(members: &[Part<'a>], out: &mut Step<&'a str>) -> Option<()>
    ensures { option_map (λ _. asked out.new) result ≡ said word.Versions (parts_items members.now) }
{
    *out = Step::Versions(last_text(members)?);
    Some(())
}

// Puts the step `tick` into `out`.
#[inline(never)]
fn tick(members: &[Part<'_>], out: &mut Step<&str>) -> Option<()>
    ensures { option_map (λ _. asked out.new) result ≡ tick_said (parts_items members.now) }
{
    let (ticks, rest) = within(1, MAX_TICK, members)?;
    if none_left(rest) {
        *out = Step::Tick(ticks);
        Some(())
    } else {
        None
    }
}

// Puts the step `gc` into `out`.
#[inline(never)]
fn gc(members: &[Part<'_>], out: &mut Step<&str>) -> Option<()>
    ensures { option_map (λ _. asked out.new) result ≡ said word.Gc (parts_items members.now) }
{
    *out = Step::Gc(last_number(members)?);
    Some(())
}

// Puts the step of what a session does by itself into `out`.
fn acts<'a>(word: Word, members: &[Part<'a>], out: &mut Step<&'a str>) -> Option<()>
    ensures { option_map (λ _. asked out.new) result ≡ acts_said word (parts_items members.now) }
{
    let (name, rest) = text(members)?;
    *out = Step::Act(name, op_of(word, rest)?);
    Some(())
}

// That of the words with which few lines begin, so that it is not inlined.
#[inline(never)]
fn acts_seldom<'a>(word: Word, members: &[Part<'a>], out: &mut Step<&'a str>) -> Option<()>
    ensures { option_map (λ _. asked out.new) result ≡ acts_said word (parts_items members.now) }
{
    acts(word, members, out)
}

// Puts the step of any word into `out`, by the members after the word.
fn said_by<'a>(word: Word, members: &[Part<'a>], out: &mut Step<&'a str>) -> Option<()>
    ensures { option_map (λ _. asked out.new) result ≡ said word (parts_items members.now) }
{
    match word {
        Word::Begin => begin(members, out),
        Word::Get => get(members, out),
        Word::Scan => scan(members, out),
        Word::Prewrite => sends(Call::Prewrite, members, out),
        Word::Commit => sends(Call::Commit, members, out),
        Word::Abort => sends(Call::Abort, members, out),
        Word::Heartbeat => heartbeat(members, out),
        Word::Deliver => deliver(members, out),
        Word::Read => read(members, out),
        Word::Versions => versions(members, out),
        Word::Tick => tick(members, out),
        Word::Gc => gc(members, out),
        Word::Seed => seed(members, out),
        Word::Transfer => transfers(members, out),
        Word::Put => acts(Word::Put, members, out),
        Word::Declare => acts(Word::Declare, members, out),
        Word::Draw => acts(Word::Draw, members, out),
        Word::Finish => acts(Word::Finish, members, out),
        Word::Insert => acts_seldom(Word::Insert, members, out),
        Word::Delete => acts_seldom(Word::Delete, members, out),
        Word::Lock => acts_seldom(Word::Lock, members, out),
        Word::Stop => acts_seldom(Word::Stop, members, out),
        Word::Resolve => acts_seldom(Word::Resolve, members, out),
    }
}

// Puts the step that the members say, of any program, into `out`.
fn any_step<'a>(members: &[Part<'a>], out: &mut Step<&'a str>) -> Option<()>
    ensures { option_map (λ _. asked out.new) result ≡ any_said (parts_items members.now) }
{
    let (text, rest) = text(members)?;
    said_by(word_of(text)?, rest, out)
}

/// Puts the step of a program's script that the members say into `out`, and tells
/// whether they say one.
#[inline(never)]
pub fn put_step<'a>(program: Program, members: &[Part<'a>], out: &mut Step<&'a str>) -> bool
    ensures { (if result then Some (asked out.new) else None) ≡ step_said program (parts_items members.now) }
{
    any_step(members, out).is_some() && out.is_of(program)
}

/// The step of a program's script that the members of a line say, where they say one. `regions` is
/// none: `bounds_of` reads it.
pub fn step_of<'a>(program: Program, members: &[Part<'a>]) -> Option<Step<&'a str>>
    ensures { option_map asked result ≡ step_said program (parts_items members.now) }
{
    let mut step = Step::Tick(0);
    if put_step(program, members, &mut step) {
        Some(step)
    } else {
        None
    }
}
