//! Circles: what regions read.
ghost use Rattle.std.specs.Prelude.{◌≡◌, ◌↔◌, List, Any, IsTrue, IfOk, OnOk, Some, option_map, string_bytes};
ghost use Rattle.tx_types.specs.Keys.{value_in};
ghost use Rattle.tx_sheet.specs.Words.{IsWord};
ghost use Rattle.tx_sheet.specs.Reads.{value_found, found_by, IsReading, IsText, Tells, AreReads, Learns};

use crate::arrows::is_scanned;
use crate::row::KeyRead;
use crate::words::shown_bytes;
use std::alloc::{AllocError, Global};
use tx_core::{Answer, Body};
use tx_trace::Taking;
use tx_types::{Key, KeyValue, Value};

// A value as it is shown.
fn shown_value(alloc: Global, value: &Value) -> Result<String, AllocError>
    ensures { IfOk result (λ text. IsWord value.now → string_bytes text ≡ value.now) }
{
    shown_bytes(alloc, value.as_bytes())
}

// What was found as it is shown.
fn text_of(alloc: Global, found: Option<&Value>) -> Result<String, AllocError>
    ensures { IfOk result (λ text. IsText (option_map (λ v. v.now) found.entry) (string_bytes text)) }
{
    match found {
        Some(value) => shown_value(alloc, value),
        None => String::from_str(alloc, "none"),
    }
}

// The value that rows give a key.
fn value_in<'a>(rows: &'a [KeyValue], key: &Key) -> Option<&'a Value>
    ensures { option_map (λ v. v.now) result ≡ value_in rows.now key.now }
{
    'rows: for row in rows {
        if row.key == *key {
            return Some(&row.value);
        }
    }
    None
}

// What a read of a key found.
fn value_found(answer: &Answer) -> Option<Option<&Value>>
    ensures { option_map (option_map (λ v. v.now)) result ≡ value_found answer.now }
{
    match answer {
        Answer::Found(value) => Some(Some(value)),
        Answer::Nothing => Some(None),
        _ => None,
    }
}

// What a request found of a key.
fn found_by<'a>(taking: &'a Taking, key: &Key) -> Option<Option<&'a Value>>
    ensures { option_map (option_map (λ v. v.now)) result ≡ found_by taking.now.body taking.now.answer key.now }
{
    match (&taking.body, &taking.answer) {
        (Body::Get(get), answer) if get.key == *key => value_found(answer),
        (Body::Scan(scan), Answer::Rows(rows)) if is_scanned(scan.asked(), rows.as_slice(), key) =>
            { Some(value_in(rows.as_slice(), key)) }
        _ => None,
    }
}

// Whether a read tells this of a key.
fn tells(read: &KeyRead, place: usize, text: &str) -> bool
    ensures { IsTrue result ↔ ((read.now.key ≡ place) × (string_bytes read.now.found ≡ text.now)) }
{
    read.key == place && read.found.as_str() == text
}

// Whether one of these reads tells this of a key.
fn knows(reads: &[KeyRead], place: usize, text: &str) -> bool
    ensures { IsTrue result ↔ Tells reads.now place text.now }
{
    'reads: for read in reads {
        if tells(read, place, text) {
            return true;
        }
    }
    false
}

// Puts a value of a key, or that there is none, among reads, unless it is told there.
fn put_value(
    alloc: Global,
    reads: &mut Vec<KeyRead>,
    place: usize,
    found: Option<&Value>,
) -> Result<(), AllocError>
    ensures { OnOk result (Learns reads.old.items reads.new.items
        (λ k f. (k ≡ place) × (f ≡ option_map (λ v. v.now) found.entry))) }
{
    let text = text_of(alloc, found)?;
    if knows(reads.as_slice(), place, text.as_str()) {
        drop(text);
        return Ok(());
    }
    Ok(reads.push(KeyRead {
        key: place,
        found: text,
    })?)
}

// Puts what was found of a key among reads, where something was.
fn put_found(
    alloc: Global,
    reads: &mut Vec<KeyRead>,
    place: usize,
    found: Option<Option<&Value>>,
) -> Result<(), AllocError>
    ensures { OnOk result (Learns reads.old.items reads.new.items
        (λ k f. (k ≡ place) × (option_map (option_map (λ v. v.now)) found.entry ≡ Some f))) }
{
    match found {
        Some(found) => put_value(alloc, reads, place, found),
        None => Ok(()),
    }
}

// Puts what a request found of each key among reads.
fn put_reads(
    alloc: Global,
    reads: &mut Vec<KeyRead>,
    keys: &[Key],
    taking: &Taking,
) -> Result<(), AllocError>
    ensures { OnOk result (Learns reads.old.items reads.new.items (IsReading keys.now taking.now)) }
{
    'keys: for (place, key) in keys.iter().enumerate() {
        put_found(alloc, reads, place, found_by(taking, key))?;
    }
    Ok(())
}

/// What the requests that regions took by a line found of these keys.
pub(crate) fn reads_of(
    alloc: Global,
    keys: &[Key],
    takings: &[Taking],
) -> Result<Vec<KeyRead>, AllocError>
    ensures { IfOk result (λ reads. AreReads keys.now takings.now reads.items) }
{
    let mut reads = Vec::new(alloc);
    'takings: for taking in takings {
        put_reads(alloc, &mut reads, keys, taking)?;
    }
    Ok(reads)
}
