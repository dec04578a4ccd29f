//! How a row is tried.
use crate::table_tests::ask::{Ask, body, key};
use crate::table_tests::short::{Short, Stand, Word, answered, is, stands};
use std::alloc::Global;
use tx_cells::{Families, Fresh};
use tx_plan::Body;
use tx_region::{Executed, Records};
use tx_types::Ts;

/// What was asked before, what is asked, what is answered, and what then stands on the key `k`.
pub type Row = (&'static [Ask], Ask, Short, Stand);

/// What was asked before, what is asked, what is answered, and what the numbers of the region then
/// are: the greatest timestamp read, the safe point, and the safe point of the last collection.
pub type RegionRow = (&'static [Ask], Ask, Short, [u64; 3]);

// Records, and the greatest timestamp that was read in them.
#[derive(Drop)]
struct Tried<F> {
    records: Records<F>,
    read: Ts,
}

// What the region answers where it has loaded 20.
fn execute<F: Families>(tried: &mut Tried<F>, body: &Body) -> Short {
    if tried.read.get() == u64::MAX {
        return (Word::Refused, 0, 0);
    }
    match tried.records.answer(Ts::new(20), tried.read, body) {
        Ok(Executed { answer, read }) => {
            tried.read = tried.read.max(read.unwrap_or(Ts::ZERO));
            answered(Ok(answer.into_answer()))
        }
        Err(fault) => answered(Err(fault)),
    }
}

fn ask<F: Families>(tried: &mut Tried<F>, alloc: Global, asked: Ask) -> Short {
    match body(alloc, asked) {
        Ok(body) => {
            let short = execute(tried, &body);
            drop(body);
            short
        }
        Err(fault) => answered(Err(fault)),
    }
}

fn stands_on_k<F: Families>(records: &Records<F>, alloc: Global) -> Option<Stand> {
    let key = key(alloc, b'k').ok()?;
    stands(records.cells_of(&key))
}

// What is answered after all that was asked before.
fn after<F: Fresh>(alloc: Global, before: &[Ask], asked: Ask) -> (Tried<F>, Short) {
    let mut tried = Tried {
        records: Records::new(alloc, F::fresh(alloc)),
        read: Ts::ZERO,
    };
    for one in before {
        ask(&mut tried, alloc, *one);
    }
    let given = ask(&mut tried, alloc, asked);
    (tried, given)
}

fn holds<F: Fresh>(alloc: Global, row: &Row) -> bool {
    let (tried, given) = after::<F>(alloc, row.0, row.1);
    let left = stands_on_k(&tried.records, alloc);
    drop(tried);
    is(given, row.2) && left == Some(row.3)
}

fn holds_in_region<F: Fresh>(alloc: Global, row: &RegionRow) -> bool {
    let (tried, given) = after::<F>(alloc, row.0, row.1);
    let left = [
        tried.read.get(),
        tried.records.safe().get(),
        tried.records.collected().get(),
    ];
    drop(tried);
    is(given, row.2) && left == row.3
}

/// The place of the first row that does not hold.
pub fn first_wrong<F: Fresh>(alloc: Global, rows: &[Row]) -> Option<usize> {
    rows.iter().position(|row| !holds::<F>(alloc, row))
}

/// The place of the first row that does not hold.
pub fn first_wrong_in_region<F: Fresh>(alloc: Global, rows: &[RegionRow]) -> Option<usize> {
    rows.iter()
        .position(|row| !holds_in_region::<F>(alloc, row))
}
