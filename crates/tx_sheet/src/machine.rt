//! The machine's steps in words.
ghost use Rattle.std.specs.Prelude.{◌≡◌, length, IfOk};

use crate::words::{put_bytes, put_stamp};
use std::alloc::{AllocError, Global};
use tx_machine::{ScanRead, Step};
use tx_types::{Change, Fate, Key, KeyValue, Mutation, Ts, Value};

// Appends a word and a key.
fn put_keyed(out: &mut String, word: &str, key: &Key) -> Result<(), AllocError> {
    out.push_str(word)?;
    put_bytes(out, key.as_bytes())
}

// Appends a word, a key and a value.
fn put_valued(out: &mut String, word: &str, key: &Key, value: &Value) -> Result<(), AllocError> {
    put_keyed(out, word, key)?;
    out.push(' ')?;
    put_bytes(out, value.as_bytes())
}

// Appends what a transaction does to a key.
fn put_change(out: &mut String, change: &Change) -> Result<(), AllocError> {
    match &change.mutation {
        Mutation::Put(value) => put_valued(out, " put ", &change.key, value),
        Mutation::Insert(value) => put_valued(out, " insert ", &change.key, value),
        Mutation::Delete => put_keyed(out, " delete ", &change.key),
        Mutation::Lock => put_keyed(out, " lock ", &change.key),
    }
}

// Appends the entries of a write set.
fn put_changes(out: &mut String, changes: &[Change]) -> Result<(), AllocError> {
    let mut before = ':';
    'changes: for change in changes {
        out.push(before)?;
        put_change(out, change)?;
        before = ',';
    }
    Ok(())
}

// Appends the rows of a scan.
fn put_rows(out: &mut String, rows: &[KeyValue]) -> Result<(), AllocError> {
    if rows.is_empty() {
        return out.push_str(" no rows");
    }
    'rows: for row in rows {
        put_keyed(out, " ", &row.key)?;
        out.push('=')?;
        put_bytes(out, row.value.as_bytes())?;
    }
    Ok(())
}

// Appends a scan and what it found.
fn put_scan(out: &mut String, scan: &ScanRead) -> Result<(), AllocError> {
    put_keyed(out, "scan ", &scan.from)?;
    put_keyed(out, " ", &scan.to)?;
    put_stamp(out, " at ", scan.at.get())?;
    out.push(':')?;
    put_rows(out, scan.rows.as_slice())
}

// Appends a read of a key and what it found.
fn put_read(out: &mut String, key: &Key, at: Ts, found: &Option<Value>) -> Result<(), AllocError> {
    put_keyed(out, "read ", key)?;
    put_stamp(out, " at ", at.get())?;
    out.push_str(": ")?;
    match found {
        Some(value) => put_bytes(out, value.as_bytes()),
        None => out.push_str("none"),
    }
}

// Appends what has become of a transaction.
fn put_answer(out: &mut String, start: Ts, fate: Fate) -> Result<(), AllocError> {
    put_stamp(out, "answer ", start.get())?;
    match fate {
        Fate::Committed(commit) => put_stamp(out, ": committed ", commit.get()),
        Fate::Aborted => out.push_str(": aborted"),
    }
}

// Appends what a step is: of a draw, a start or an end the numbers, of a declaration the write set,
// of a read what it found.
fn put_step(out: &mut String, step: &Step) -> Result<(), AllocError> {
    match step {
        Step::Draw(ts) => put_stamp(out, "draw ", ts.get()),
        Step::Begin(start) => put_stamp(out, "begin ", start.get()),
        Step::Declare(start, changes) => {
            put_stamp(out, "declare ", start.get())?;
            put_changes(out, changes.as_slice())
        }
        Step::Commit(start, commit) => {
            put_stamp(out, "commit ", start.get())?;
            put_stamp(out, " at ", commit.get())
        }
        Step::Abort(start) => put_stamp(out, "abort ", start.get()),
        Step::Read(key, at, found) => put_read(out, key, *at, found),
        Step::Scan(scan) => put_scan(out, scan),
        Step::Answer(start, fate) => put_answer(out, *start, *fate),
    }
}

/// The machine's steps in words.
pub(crate) fn words_of(alloc: Global, steps: &[Step]) -> Result<Vec<String>, AllocError>
    ensures { IfOk result (λ all. length all.items ≡ length steps.now) }
{
    let mut all = Vec::new(alloc);
    'steps: for step in steps {
        let mut words = String::new(alloc);
        put_step(&mut words, step)?;
        all.push(words)?;
    }
    Ok(all)
}
