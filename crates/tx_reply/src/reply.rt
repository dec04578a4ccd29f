//! The replies of a script, and the lines that tell them.
ghost use Rattle.std.specs.Prelude.{◌≡◌, ◌∷◌, [], ◌++◌, OnOk};
ghost use Rattle.tx_reply.specs.Replies.{reply_words, outcome_words, collected_words};
ghost use Rattle.tx_text.specs.Members.{reply_text};
ghost use Rattle.tx_core.specs.declared.event.Outcome.TheVariants as outcome;
ghost use Rattle.tx_text.specs.Texts.{members_text};

use crate::answer::put_answer;
use crate::status::put_status;
use crate::versions::put_copy;
use std::alloc::AllocError;
use tx_cells::ShownKey;
use tx_client::Status;
use tx_core::{Answer, Outcome, UnknownCause};
use tx_text::{put_digits, put_end, put_number, put_stamped};
use tx_types::Ts;

/// What a step answers.
#[derive(Debug, Drop)]
pub enum ScriptReply {
    /// How many regions there are.
    Regions(usize),
    Start(Ts),
    Fine,
    /// Nothing was left to send.
    Done,
    Drawn(Ts),
    Ended(Outcome),
    /// The store's answer, or the buffer's.
    Answered(Answer),
    /// No answer came back.
    Lost,
    /// The last timestamp that was drawn.
    Last(Ts),
    /// What became of the transaction of a lock that was met.
    Status(Status),
    /// What is shown of a key.
    Versions(ShownKey),
    /// How many write records, and how many values of the `default` family, a collection of all
    /// regions dropped.
    Collected { records: u64, values: u64 },
    /// The seat's ticks are spent.
    OracleSpent,
    OutOfMemory,
    KeyLength,
    ValueLength,
    TooManyKeys,
    /// The buffer has a value of the key that is to be inserted.
    AlreadyExists,
}

#[tactic(auto, unfolding(json::specs::Print::escape_byte))]
fn put_unknown(out: &mut Vec<u8>, cause: UnknownCause) -> Result<(), AllocError>
    ensures { OnOk result (out.new.items ≡ out.old.items ++ members_text (outcome_words (outcome.Unknown cause))) }
{
    match cause {
        UnknownCause::Reply => out.extend_from_slice(b",\"unknown\",\"reply\""),
        UnknownCause::BelowSafePoint => out.extend_from_slice(b",\"unknown\",\"E7\""),
        UnknownCause::OutOfMemory => out.extend_from_slice(b",\"unknown\",\"E12\""),
    }
}

#[tactic(auto, unfolding(json::specs::Print::escape_byte))]
fn put_outcome(out: &mut Vec<u8>, outcome: Outcome) -> Result<(), AllocError>
    ensures { OnOk result (out.new.items ≡ out.old.items ++ members_text (outcome_words outcome)) }
{
    match outcome {
        Outcome::Committed(commit) => put_stamped(out, b",\"committed\"", commit.get()),
        Outcome::Aborted => out.extend_from_slice(b",\"aborted\""),
        Outcome::Unknown(cause) => put_unknown(out, cause),
        Outcome::ReadOnly => out.extend_from_slice(b",\"read-only\""),
    }
}

fn put_collected(out: &mut Vec<u8>, records: u64, values: u64) -> Result<(), AllocError>
    ensures { OnOk result (out.new.items ≡ out.old.items ++ members_text (collected_words records values)) }
{
    put_stamped(out, b",\"collected\"", records)?;
    put_number(out, values)
}

#[tactic(auto, unfolding(json::specs::Print::escape_byte))]
fn put_words(out: &mut Vec<u8>, reply: &ScriptReply) -> Result<(), AllocError>
    ensures { OnOk result (out.new.items ≡ out.old.items ++ members_text (reply_words reply.now)) }
{
    match reply {
        ScriptReply::Regions(count) => put_stamped(out, b",\"regions\"", *count as u64),
        ScriptReply::Start(start) => put_stamped(out, b",\"start\"", start.get()),
        ScriptReply::Fine => out.extend_from_slice(b",\"ok\""),
        ScriptReply::Done => out.extend_from_slice(b",\"done\""),
        ScriptReply::Drawn(commit) => put_stamped(out, b",\"drawn\"", commit.get()),
        ScriptReply::Ended(outcome) => {
            out.extend_from_slice(b",\"outcome\"")?;
            put_outcome(out, *outcome)
        }
        ScriptReply::Answered(answer) => put_answer(out, answer),
        ScriptReply::Lost => out.extend_from_slice(b",\"lost\""),
        ScriptReply::Last(last) => put_stamped(out, b",\"last\"", last.get()),
        ScriptReply::Status(status) => {
            out.extend_from_slice(b",\"status\"")?;
            put_status(out, *status)
        }
        ScriptReply::Versions(shown) => {
            out.extend_from_slice(b",\"versions\"")?;
            put_copy(out, shown.copy())
        }
        ScriptReply::Collected { records, values } => put_collected(out, *records, *values),
        ScriptReply::OracleSpent => out.extend_from_slice(b",\"E11\""),
        ScriptReply::OutOfMemory => out.extend_from_slice(b",\"E12\""),
        ScriptReply::KeyLength => out.extend_from_slice(b",\"E13\""),
        ScriptReply::ValueLength => out.extend_from_slice(b",\"E14\""),
        ScriptReply::TooManyKeys => out.extend_from_slice(b",\"E15\""),
        ScriptReply::AlreadyExists => out.extend_from_slice(b",\"E17\""),
    }
}

/// The bytes that the line of E12 takes at most, with any number. Where they are kept, it is told
/// without a growth.
pub const REFUSAL_BYTES: usize = 32;

/// Appends what follows the number in the line of a reply, with its newline.
#[inline(always)]
pub(crate) fn put_behind_number(out: &mut Vec<u8>, reply: &ScriptReply) -> Result<(), AllocError>
    ensures { OnOk result (out.new.items
        ≡ (out.old.items ++ members_text (reply_words reply.now)) ++ 93 ∷ 10 ∷ []) }
{
    put_words(out, reply)?;
    put_end(out)
}

/// Appends the line that tells a reply, with its newline.
pub fn put_reply(out: &mut Vec<u8>, number: u64, reply: &ScriptReply) -> Result<(), AllocError>
    ensures { OnOk result (out.new.items ≡ out.old.items ++ reply_text (number, reply_words reply.now)) }
{
    out.push(b'[')?;
    put_digits(out, number)?;
    put_behind_number(out, reply)
}
