//! Steps of the one-step machine whose last member is a list of rows, read from a line
//! that was scanned.
ghost use Rattle.std.specs.Prelude.{◌≡◌, Some, map, IfOk};
ghost use Rattle.serde_json.specs.Data.{array};
ghost use Rattle.serde_json.specs.View.{items_of};
ghost use Rattle.tx_text.specs.Parts.{part_data, row_data, listed_items};
ghost use Rattle.tx_check.specs.MachineSteps.{all_of, change_of, row_of, three_of, six_of, step_of_items};

use crate::machine_step::{UnreadStep, key, plain, plain_value, put, row_limit, text, timestamp};
use std::alloc::Global;
use tx_machine::{ScanRead, Step};
use tx_text::{ListItem, Part};
use tx_types::{Change, Changes, KeyValue, KeyValues};

/// The step of a line whose last member is a list of rows. `Err`: not known; ask the JSON reader.
pub(crate) fn listed_step(
    alloc: Global,
    members: &[Part<'_>],
    rows: &[ListItem<'_>],
) -> Result<Step, UnreadStep>
    ensures { IfOk result (λ step. step_of_items (listed_items members.now rows.now) ≡ Some step) }
{
    match members {
        [word, start] => declare(alloc, word, start, rows),
        [word, at, from, to, limit] => scan(alloc, word, at, from, to, limit, rows),
        _ => Err(UnreadStep::Form),
    }
}

fn declare(
    alloc: Global,
    word: &Part<'_>,
    start: &Part<'_>,
    rows: &[ListItem<'_>],
) -> Result<Step, UnreadStep>
    ensures { IfOk result (λ step. three_of (part_data word.now) (part_data start.now)
        (array (items_of (map row_data rows.now))) ≡ Some step) }
{
    if text(word)? == "declare" {
        Ok(Step::Declare(timestamp(start)?, changes(alloc, rows)?))
    } else {
        Err(UnreadStep::Form)
    }
}

fn scan(
    alloc: Global,
    word: &Part<'_>,
    at: &Part<'_>,
    from: &Part<'_>,
    to: &Part<'_>,
    limit: &Part<'_>,
    rows: &[ListItem<'_>],
) -> Result<Step, UnreadStep>
    ensures { IfOk result (λ step. six_of (part_data word.now) (part_data at.now) (part_data from.now)
        (part_data to.now) (part_data limit.now) (array (items_of (map row_data rows.now))) ≡ Some step) }
{
    if text(word)? != "scan" {
        return Err(UnreadStep::Form);
    }
    let at = timestamp(at)?;
    let from = key(alloc, from)?;
    let to = key(alloc, to)?;
    let limit = row_limit(limit)?;
    let rows = key_values(alloc, rows)?;
    Ok(Step::Scan(ScanRead {
        from,
        to,
        at,
        limit,
        rows,
    }))
}

fn changes(alloc: Global, rows: &[ListItem<'_>]) -> Result<Changes, UnreadStep>
    ensures { IfOk result (λ changes. all_of change_of (items_of (map row_data rows.now)) ≡ Some changes) }
{
    let Ok(mut changes) = Changes::with_capacity(alloc, rows.len()) else {
        return Err(UnreadStep::Memory);
    };
    for row in rows {
        if changes.push(change(alloc, row)?).is_err() {
            return Err(UnreadStep::Memory);
        }
    }
    Ok(changes)
}

fn change(alloc: Global, row: &ListItem<'_>) -> Result<Change, UnreadStep>
    ensures { IfOk result (λ change. change_of (row_data row.now) ≡ Some change) }
{
    let (name, mutation) = match *row {
        ListItem::Pair(name, word) => (name, plain(&Part::Text(word))?),
        ListItem::Triple(name, word, value) => {
            (name, put(alloc, &Part::Text(word), &Part::Text(value))?)
        }
    };
    let key = key(alloc, &Part::Text(name))?;
    Ok(Change { key, mutation })
}

fn key_values(alloc: Global, rows: &[ListItem<'_>]) -> Result<KeyValues, UnreadStep>
    ensures { IfOk result (λ found. all_of row_of (items_of (map row_data rows.now)) ≡ Some found) }
{
    let Ok(mut found) = KeyValues::with_capacity(alloc, rows.len()) else {
        return Err(UnreadStep::Memory);
    };
    for row in rows {
        if found.push(key_value(alloc, row)?).is_err() {
            return Err(UnreadStep::Memory);
        }
    }
    Ok(found)
}

fn key_value(alloc: Global, row: &ListItem<'_>) -> Result<KeyValue, UnreadStep>
    ensures { IfOk result (λ found. row_of (row_data row.now) ≡ Some found) }
{
    match *row {
        ListItem::Pair(name, value) => {
            let key = key(alloc, &Part::Text(name))?;
            let value = plain_value(alloc, &Part::Text(value))?;
            Ok(KeyValue { key, value })
        }
        ListItem::Triple(_, _, _) => Err(UnreadStep::Form),
    }
}
