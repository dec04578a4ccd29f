//! The lines of the machine's steps, as they are read in a trace.
ghost use Rattle.std.specs.Prelude.{◌≡◌, ◌++◌, ◌∷◌, OnOk};
ghost use Rattle.serde_json.specs.Data.{string};
ghost use Rattle.serde_json.specs.Written.{compact_text};
ghost use Rattle.tx_check.specs.Steps.{beside_text, change_data, fate_words, found_data, mutation_words, step_fields, step_text, step_word};
ghost use Rattle.tx_text.specs.Texts.{members_text};

use std::alloc::AllocError;
use tx_machine::{ScanRead, Step};
use tx_text::{Entries, Rows, put_digits, put_list, put_number, put_stamped, put_string, put_text};
use tx_types::{Change, Fate, Mutation, Ts, Value};

// What is done to a key, each word with a comma before it.
#[tactic(auto, unfolding(json::specs::Print::escape_byte))]
fn put_mutation(out: &mut Vec<u8>, mutation: &Mutation) -> Result<(), AllocError>
    ensures { OnOk result (out.new.items ≡ out.old.items ++ members_text (mutation_words mutation.now)) }
{
    match mutation {
        Mutation::Put(value) => {
            out.extend_from_slice(b",\"put\"")?;
            put_text(out, value.as_bytes())
        }
        Mutation::Insert(value) => {
            out.extend_from_slice(b",\"insert\"")?;
            put_text(out, value.as_bytes())
        }
        Mutation::Delete => out.extend_from_slice(b",\"delete\""),
        Mutation::Lock => out.extend_from_slice(b",\"lock\""),
    }
}

// The entries of a write set.
struct Writes;

impl Entries<Change> for Writes {
    ghost value = { change_data };

    fn put(out: &mut Vec<u8>, entry: &Change) -> Result<(), AllocError> {
        out.extend_from_slice(b"[")?;
        put_string(out, entry.key.as_bytes())?;
        put_mutation(out, &entry.mutation)?;
        out.extend_from_slice(b"]")
    }
}

// What a read found.
fn put_found(out: &mut Vec<u8>, found: &Option<Value>) -> Result<(), AllocError>
    ensures { OnOk result (out.new.items ≡ out.old.items ++ 44 ∷ compact_text (found_data found.now)) }
{
    match found {
        None => out.extend_from_slice(b",null"),
        Some(value) => put_text(out, value.as_bytes()),
    }
}

// How a transaction ended.
#[tactic(auto, unfolding(json::specs::Print::escape_byte))]
fn put_fate(out: &mut Vec<u8>, fate: Fate) -> Result<(), AllocError>
    ensures { OnOk result (out.new.items ≡ out.old.items ++ members_text (fate_words fate)) }
{
    match fate {
        Fate::Committed(commit) => put_stamped(out, b",\"committed\"", commit.get()),
        Fate::Aborted => out.extend_from_slice(b",\"aborted\""),
    }
}

// A declaration, after its word.
fn put_declared(out: &mut Vec<u8>, start: Ts, changes: &[Change]) -> Result<(), AllocError>
    ensures { OnOk result (out.new.items ≡ out.old.items
        ++ members_text (step_fields (Step.Declare start changes.now))) }
{
    put_number(out, start.get())?;
    out.extend_from_slice(b",")?;
    put_list::<_, Writes>(out, changes)
}

// A scan, after its word.
fn put_scan(out: &mut Vec<u8>, scan: &ScanRead) -> Result<(), AllocError>
    ensures { OnOk result (out.new.items ≡ out.old.items ++ members_text (step_fields (Step.Scan scan.now))) }
{
    put_number(out, scan.at.get())?;
    put_text(out, scan.from.as_bytes())?;
    put_text(out, scan.to.as_bytes())?;
    put_number(out, u64::from(scan.limit))?;
    out.extend_from_slice(b",")?;
    put_list::<_, Rows>(out, scan.rows.as_slice())
}

// What follows the word of a step, each part with a comma before it.
fn put_fields(out: &mut Vec<u8>, step: &Step) -> Result<(), AllocError>
    ensures { OnOk result (out.new.items ≡ out.old.items ++ members_text (step_fields step.now)) }
{
    match step {
        Step::Draw(n) => put_number(out, n.get()),
        Step::Begin(start) => put_number(out, start.get()),
        Step::Declare(start, changes) => put_declared(out, *start, changes.as_slice()),
        Step::Commit(start, commit) => {
            put_number(out, start.get())?;
            put_number(out, commit.get())
        }
        Step::Abort(start) => put_number(out, start.get()),
        Step::Read(key, at, found) => {
            put_number(out, at.get())?;
            put_text(out, key.as_bytes())?;
            put_found(out, found)
        }
        Step::Scan(scan) => put_scan(out, scan),
        Step::Answer(start, fate) => {
            put_number(out, start.get())?;
            put_fate(out, *fate)
        }
    }
}

// The word of a step, as it is written.
#[tactic(auto, unfolding(json::specs::Print::escape_byte))]
fn word_of(step: &Step) -> &'static [u8]
    ensures { result.now ≡ compact_text (string (step_word step.now)) }
{
    match step {
        Step::Draw(_) => b"\"draw\"",
        Step::Begin(_) => b"\"begin\"",
        Step::Declare(_, _) => b"\"declare\"",
        Step::Commit(_, _) => b"\"commit\"",
        Step::Abort(_) => b"\"abort\"",
        Step::Read(_, _, _) => b"\"read\"",
        Step::Scan(_) => b"\"scan\"",
        Step::Answer(_, _) => b"\"answer\"",
    }
}

/// Appends the line of a step, with its newline.
pub fn put_step(out: &mut Vec<u8>, step: &Step) -> Result<(), AllocError>
    ensures { OnOk result (out.new.items ≡ out.old.items ++ step_text step.now) }
{
    out.extend_from_slice(b"[")?;
    out.extend_from_slice(word_of(step))?;
    put_fields(out, step)?;
    out.extend_from_slice(b"]\n")
}

/// Appends the line of a step beside the number of the script's line during which it was taken,
/// with its newline.
pub fn put_step_beside(out: &mut Vec<u8>, number: u64, step: &Step) -> Result<(), AllocError>
    ensures { OnOk result (out.new.items ≡ out.old.items ++ beside_text (number, step.now)) }
{
    out.extend_from_slice(b"[")?;
    put_digits(out, number)?;
    out.extend_from_slice(b",[")?;
    out.extend_from_slice(word_of(step))?;
    put_fields(out, step)?;
    out.extend_from_slice(b"]]\n")
}
