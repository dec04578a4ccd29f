//! The words of an answer: names and values as they were read, and what the judge calls by words.
ghost use Rattle.std.specs.Prelude.{◌≡◌, ◌++◌, OnOk};
ghost use Rattle.serde_json.specs.Data.{boolean};
ghost use Rattle.serde_json.specs.Written.{compact_text};
ghost use Rattle.std.specs.Fmt.{signed_decimal};
ghost use Rattle.tx_verdict_text.specs.Words.{name_data, scalar_data, key_data, value_data, process_data, id_data, truth_word as word_of_truth, edge_word as word_of_edge, anomaly_word, beside_word, cycle_word as word_of_cycle, rule_word as word_of_rule};

use itoa::Buffer;
use std::alloc::AllocError;
use tx_import::{Name, NamedHistory, Scalar};
use tx_text::{put_digits, put_string};
use tx_verdict::{Anomaly, Beside, Cycle, EdgeKind, Rule};

// Appends a name, as it was read.
fn put_name(out: &mut Vec<u8>, name: &Name) -> Result<(), AllocError>
    ensures { OnOk result (out.new.items ≡ out.old.items ++ compact_text (name_data name.now)) }
{
    match name {
        Name::Text(key) => put_string(out, key.as_bytes()),
        Name::Number(n) => put_digits(out, *n),
    }
}

/// Appends a whole number, with a sign where it is below 0.
pub fn put_signed(out: &mut Vec<u8>, n: i64) -> Result<(), AllocError>
    ensures { OnOk result (out.new.items ≡ out.old.items ++ signed_decimal n) }
{
    let mut buffer = Buffer::new();
    out.extend_from_slice(buffer.format(n).as_bytes())
}

/// What true and false are called.
pub fn truth_word(truth: bool) -> &'static str
    ensures { result.now ≡ word_of_truth truth }
{
    if truth { "true" } else { "false" }
}

// Appends true or false.
fn put_truth(out: &mut Vec<u8>, truth: bool) -> Result<(), AllocError>
    ensures { OnOk result (out.new.items ≡ out.old.items ++ compact_text (boolean truth)) }
{
    if truth {
        out.extend_from_slice(b"true")
    } else {
        out.extend_from_slice(b"false")
    }
}

// Appends a value, as it was read.
fn put_scalar(out: &mut Vec<u8>, value: &Scalar) -> Result<(), AllocError>
    ensures { OnOk result (out.new.items ≡ out.old.items ++ compact_text (scalar_data value.now)) }
{
    match value {
        Scalar::Text(words) => put_string(out, words.as_bytes()),
        Scalar::Number(n) => put_digits(out, *n),
        Scalar::Negative(n) => put_signed(out, *n),
        Scalar::Truth(truth) => put_truth(out, *truth),
    }
}

/// Appends the name of a key.
pub fn put_key(out: &mut Vec<u8>, history: &NamedHistory, key: u32) -> Result<(), AllocError>
    ensures { OnOk result (out.new.items ≡ out.old.items ++ compact_text (key_data history.now key)) }
{
    match history.tables.keys.get(key as usize) {
        Some(name) => put_name(out, name),
        None => out.extend_from_slice(b"null"),
    }
}

/// Appends a value.
pub fn put_value(out: &mut Vec<u8>, history: &NamedHistory, value: u32) -> Result<(), AllocError>
    ensures { OnOk result (out.new.items ≡ out.old.items ++ compact_text (value_data history.now value)) }
{
    match history.tables.values.get(value as usize) {
        Some(keyed) => put_scalar(out, &keyed.value),
        None => out.extend_from_slice(b"null"),
    }
}

/// Appends the name of a process.
pub fn put_process(
    out: &mut Vec<u8>,
    history: &NamedHistory,
    process: u32,
) -> Result<(), AllocError>
    ensures { OnOk result (out.new.items ≡ out.old.items ++ compact_text (process_data history.now process)) }
{
    match history.tables.processes.get(process as usize) {
        Some(name) => put_name(out, name),
        None => out.extend_from_slice(b"null"),
    }
}

/// Appends the id of a transaction.
pub fn put_id(out: &mut Vec<u8>, history: &NamedHistory, txn: u32) -> Result<(), AllocError>
    ensures { OnOk result (out.new.items ≡ out.old.items ++ compact_text (id_data history.now txn)) }
{
    match history.recording.transactions.get(txn as usize) {
        Some(transaction) => put_digits(out, transaction.id),
        None => out.extend_from_slice(b"null"),
    }
}

/// The word of an edge.
pub fn edge_word(edge: EdgeKind) -> &'static str
    ensures { result.now ≡ word_of_edge edge }
{
    match edge {
        EdgeKind::Ww => "ww",
        EdgeKind::Wr => "wr",
        EdgeKind::Rw => "rw",
        EdgeKind::So => "so",
        EdgeKind::Rt => "rt",
    }
}

// The name of an anomaly by reads and writes alone.
fn anomaly_name(anomaly: Anomaly) -> &'static str
    ensures { result.now ≡ anomaly_word anomaly ++ beside_word Beside.Nothing }
{
    match anomaly {
        Anomaly::G0 => "G0",
        Anomaly::G1c => "G1c",
        Anomaly::LostUpdate => "lost-update",
        Anomaly::GSingle => "G-single",
        Anomaly::LongFork => "long-fork",
        Anomaly::GNonadjacent => "G-nonadjacent",
        Anomaly::G2Item => "G2-item",
    }
}

// The name of an anomaly that needs the order of a process.
fn process_name(anomaly: Anomaly) -> &'static str
    ensures { result.now ≡ anomaly_word anomaly ++ beside_word Beside.Processes }
{
    match anomaly {
        Anomaly::G0 => "G0-process",
        Anomaly::G1c => "G1c-process",
        Anomaly::LostUpdate => "lost-update-process",
        Anomaly::GSingle => "G-single-process",
        Anomaly::LongFork => "long-fork-process",
        Anomaly::GNonadjacent => "G-nonadjacent-process",
        Anomaly::G2Item => "G2-item-process",
    }
}

// The name of an anomaly that needs the order of the clock.
fn clock_name(anomaly: Anomaly) -> &'static str
    ensures { result.now ≡ anomaly_word anomaly ++ beside_word Beside.Clock }
{
    match anomaly {
        Anomaly::G0 => "G0-realtime",
        Anomaly::G1c => "G1c-realtime",
        Anomaly::LostUpdate => "lost-update-realtime",
        Anomaly::GSingle => "G-single-realtime",
        Anomaly::LongFork => "long-fork-realtime",
        Anomaly::GNonadjacent => "G-nonadjacent-realtime",
        Anomaly::G2Item => "G2-item-realtime",
    }
}

/// The name of the anomaly of a cycle, with the order that it needs beside those of reads and
/// writes.
pub fn cycle_word(cycle: &Cycle) -> &'static str
    ensures { result.now ≡ word_of_cycle cycle.now }
{
    match cycle.beside {
        Beside::Nothing => anomaly_name(cycle.anomaly),
        Beside::Processes => process_name(cycle.anomaly),
        Beside::Clock => clock_name(cycle.anomaly),
    }
}

/// The name of what one transaction read that cannot be.
pub fn rule_word(rule: Rule) -> &'static str
    ensures { result.now ≡ word_of_rule rule }
{
    match rule {
        Rule::Internal => "internal",
        Rule::G1a => "G1a",
        Rule::G1b => "G1b",
        Rule::Unwritten => "unwritten",
        Rule::Unrepeatable => "unrepeatable",
        Rule::IncompatibleOrder => "incompatible-order",
        Rule::Duplicate => "duplicate",
        Rule::LostUpdate => "lost-update",
    }
}
