//! What a reply line says of a region's answer.
ghost use Rattle.std.specs.Prelude.{◌≡◌, ◌++◌, OnOk};
ghost use Rattle.serde_json.specs.Data.{item, no_items, string};
ghost use Rattle.tx_reply.specs.Replies.{answer_words, lock_fields};
ghost use Rattle.tx_text.specs.Texts.{members_text};
ghost use Rattle.tx_reply.specs.Words.{mode_word};

use std::alloc::AllocError;
use tx_core::Answer;
use tx_text::{Rows, put_list, put_number, put_stamped, put_text};
use tx_types::{LockInfo, Mode};

/// Appends a mode, with a comma before it.
#[tactic(auto, unfolding(json::specs::Print::escape_byte))]
pub(crate) fn put_mode(out: &mut Vec<u8>, mode: Mode) -> Result<(), AllocError>
    ensures { OnOk result (out.new.items ≡ out.old.items ++ members_text (item (string (mode_word mode)) no_items)) }
{
    match mode {
        Mode::TwoPhase => out.extend_from_slice(b",\"two-phase\""),
        Mode::Async => out.extend_from_slice(b",\"async\""),
    }
}

// What is told of a lock.
fn put_lock(out: &mut Vec<u8>, info: &LockInfo) -> Result<(), AllocError>
    ensures { OnOk result (out.new.items ≡ out.old.items ++ members_text (lock_fields info.now)) }
{
    let facts = info.facts();
    put_text(out, facts.key.as_bytes())?;
    put_number(out, facts.start.get())?;
    put_text(out, facts.primary.as_bytes())?;
    put_number(out, facts.min.get())?;
    put_mode(out, facts.mode)
}

// A word, as it is written, and a lock.
fn put_locked(out: &mut Vec<u8>, word: &[u8], info: &LockInfo) -> Result<(), AllocError>
    ensures { OnOk result (out.new.items ≡ out.old.items ++ (word.now ++ members_text (lock_fields info.now))) }
{
    out.extend_from_slice(word)?;
    put_lock(out, info)
}

/// Appends the words of an answer, each with a comma before it. What no step asks for has none.
#[tactic(auto, unfolding(json::specs::Print::escape_byte))]
pub(crate) fn put_answer(out: &mut Vec<u8>, answer: &Answer) -> Result<(), AllocError>
    ensures { OnOk result (out.new.items ≡ out.old.items ++ members_text (answer_words answer.now)) }
{
    match answer {
        Answer::Found(value) => {
            out.extend_from_slice(b",\"value\"")?;
            put_text(out, value.as_bytes())
        }
        Answer::Rows(rows) => {
            out.extend_from_slice(b",\"rows\",")?;
            put_list::<_, Rows>(out, rows.as_slice())
        }
        Answer::Nothing => out.extend_from_slice(b",\"none\""),
        Answer::Prewritten(min) => put_stamped(out, b",\"prewritten\"", min.get()),
        Answer::Committed(commit) => put_stamped(out, b",\"committed\"", commit.get()),
        Answer::RolledBack => out.extend_from_slice(b",\"rolled-back\""),
        Answer::Ttl(ttl) => put_stamped(out, b",\"ttl\"", u64::from(*ttl)),
        Answer::Missing => out.extend_from_slice(b",\"missing\""),
        Answer::Locked(info) => put_stamped(out, b",\"locked\"", info.facts().async_min().get()),
        Answer::KeyIsLocked(info) => put_locked(out, b",\"E1\"", info),
        Answer::WriteConflict { start, commit } => {
            put_stamped(out, b",\"E2\"", start.get())?;
            put_number(out, commit.get())
        }
        Answer::AlreadyRolledBack => out.extend_from_slice(b",\"E3\""),
        Answer::AlreadyCommitted { commit } => put_stamped(out, b",\"E4\"", commit.get()),
        Answer::CommitTsExpired { min } => put_stamped(out, b",\"E5\"", min.get()),
        Answer::TxnLockNotFound => out.extend_from_slice(b",\"E6\""),
        Answer::BelowSafePoint { safe } => put_stamped(out, b",\"E7\"", safe.get()),
        Answer::FutureTimestamp { last } => put_stamped(out, b",\"E8\"", last.get()),
        Answer::LocksRemain(info) => put_locked(out, b",\"E9\"", info),
        Answer::TxnNotFound => out.extend_from_slice(b",\"E10\""),
        Answer::AlreadyExists => out.extend_from_slice(b",\"E17\""),
        Answer::Resolved | Answer::Raised | Answer::Locks(_) | Answer::Collected { .. } => Ok(()),
    }
}
