//! What a reply line shows of a key.
ghost use Rattle.std.specs.Prelude.{◌≡◌, ◌++◌, OnOk};
ghost use Rattle.serde_json.specs.Data.{string};
ghost use Rattle.serde_json.specs.Written.{compact_text};
ghost use Rattle.tx_text.specs.Texts.{members_text};
ghost use Rattle.tx_reply.specs.Words.{kind_word};
ghost use Rattle.tx_text.specs.Members.{stamp_data};
ghost use Rattle.tx_reply.specs.Versions.{head_data, lock_data, marks, record_words, record_data, copy_words};

use crate::answer::put_mode;
use std::alloc::AllocError;
use tx_cells::{KeyVersions, RecordAt};
use tx_plan::{LockHead, RecordHead};
use tx_text::{Entries, put_digits, put_list, put_number, put_stamped};
use tx_types::{LockKind, Ts};

#[tactic(auto, unfolding(json::specs::Print::escape_byte))]
fn put_kind(out: &mut Vec<u8>, kind: LockKind) -> Result<(), AllocError>
    ensures { OnOk result (out.new.items ≡ out.old.items ++ compact_text (string (kind_word kind))) }
{
    match kind {
        LockKind::Put => out.extend_from_slice(b"\"put\""),
        LockKind::Delete => out.extend_from_slice(b"\"delete\""),
        LockKind::Lock => out.extend_from_slice(b"\"lock\""),
    }
}

fn put_head(out: &mut Vec<u8>, lock: LockHead) -> Result<(), AllocError>
    ensures { OnOk result (out.new.items ≡ out.old.items ++ compact_text (head_data lock)) }
{
    out.extend_from_slice(b"[")?;
    put_kind(out, lock.kind)?;
    put_number(out, lock.start.get())?;
    put_number(out, lock.min.get())?;
    put_mode(out, lock.mode)?;
    out.extend_from_slice(b"]")
}

fn put_lock(out: &mut Vec<u8>, lock: Option<LockHead>) -> Result<(), AllocError>
    ensures { OnOk result (out.new.items ≡ out.old.items ++ compact_text (lock_data lock)) }
{
    match lock {
        None => out.extend_from_slice(b"null"),
        Some(lock) => put_head(out, lock),
    }
}

#[tactic(auto, unfolding(json::specs::Print::escape_byte))]
fn put_mark(out: &mut Vec<u8>, overlapped: bool) -> Result<(), AllocError>
    ensures { OnOk result (out.new.items ≡ out.old.items ++ members_text (marks overlapped)) }
{
    if overlapped {
        return out.extend_from_slice(b",\"marked\"");
    }
    Ok(())
}

#[tactic(auto, unfolding(json::specs::Print::escape_byte))]
fn put_record(out: &mut Vec<u8>, at: Ts, head: RecordHead) -> Result<(), AllocError>
    ensures { OnOk result (out.new.items ≡ out.old.items ++ members_text (record_words at head)) }
{
    match head {
        RecordHead::Commit {
            kind,
            start,
            overlapped_rollback,
        } => {
            out.extend_from_slice(b",")?;
            put_kind(out, kind)?;
            put_number(out, start.get())?;
            put_mark(out, overlapped_rollback)
        }
        RecordHead::Rollback => put_stamped(out, b",\"rollback\"", at.get()),
    }
}

// The write records of a key.
struct RecordRows;

impl Entries<RecordAt> for RecordRows {
    ghost value = { record_data };

    fn put(out: &mut Vec<u8>, entry: &RecordAt) -> Result<(), AllocError> {
        out.extend_from_slice(b"[")?;
        put_digits(out, entry.at.get())?;
        put_record(out, entry.at, entry.head)?;
        out.extend_from_slice(b"]")
    }
}

// Timestamps.
struct Stamps;

impl Entries<Ts> for Stamps {
    ghost value = { stamp_data };

    fn put(out: &mut Vec<u8>, entry: &Ts) -> Result<(), AllocError> {
        put_digits(out, entry.get())
    }
}

/// Appends what is shown of a key, each part with a comma before it.
pub(crate) fn put_copy(out: &mut Vec<u8>, copy: &KeyVersions) -> Result<(), AllocError>
    ensures { OnOk result (out.new.items ≡ out.old.items ++ members_text (copy_words copy.now)) }
{
    out.extend_from_slice(b",")?;
    put_lock(out, copy.lock)?;
    out.extend_from_slice(b",")?;
    put_list::<_, RecordRows>(out, copy.records.as_slice())?;
    out.extend_from_slice(b",")?;
    put_list::<_, Stamps>(out, copy.values.as_slice())
}
