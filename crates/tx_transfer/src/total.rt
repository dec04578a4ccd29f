//! The sum of the balances of all keys.
ghost use Rattle.std.specs.Prelude.{◌≡◌, ◌≤◌, ◌<◌, ◌+◌, ◌*◌, ◌^◌, length, Ok, IfOk, IfErr, IfSome};
ghost use Rattle.tx_core.specs.Histories.{Begins};
ghost use Rattle.tx_transfer.specs.Totals.{AddsPage, HasReadTo, IsPage, IsTotal, ReadsOn, SumsTo, balances_of, top};

use crate::balance::{BALANCES, balance_of};
use crate::context::Context;
use crate::requests::page;
use std::sync::Wait;
use tx_cells::Families;
use tx_client::Session;
use tx_core::Answer;
use tx_journal::{JournalId, Seat};
use tx_text::Broken;
use tx_types::limits::MAX_SCAN_ROWS;
use tx_types::{Fault, Key, KeyValue, KeyValues, Ts};

// The sum of the balances of these rows.
fn sum_of(rows: &[KeyValue]) -> u128
    requires { length rows.now ≤ MAX_SCAN_ROWS }
    ensures sum { result ≡ balances_of rows.now }
    ensures most { result ≤ MAX_SCAN_ROWS * BALANCES }
{
    let mut sum = 0;
    for row in rows {
        sum += u128::from(balance_of(row.value.as_bytes()));
    }
    sum
}

// Adds the balances of a page, and tells where to read on, where there may be more: its last row is
// then left for the next page, which begins with it.
fn add_page(total: &mut u128, page: KeyValues) -> Option<Key>
    requires few { length page ≤ MAX_SCAN_ROWS }
    requires room { total.old + MAX_SCAN_ROWS * BALANCES < 2 ^ 128 }
    ensures adds { AddsPage page total.old total.new result }
    ensures most { total.new ≤ total.old + MAX_SCAN_ROWS * BALANCES }
{
    let mut rows = page.into_vec();
    if rows.len() < MAX_SCAN_ROWS as usize {
        *total += sum_of(rows.as_slice());
        return None;
    }
    let last = rows.pop()?;
    *total += sum_of(rows.as_slice());
    Some(last.key)
}

// The rows from a key on, as many as a scan may have. None where a lock stood in the way, which is
// then resolved.
fn read_page<J: JournalId, F: Families + Drop, R: Wait + Drop>(
    session: &mut Session<J>,
    context: &mut Context<J, F, R>,
    from: &Key,
) -> Result<Option<KeyValues>, Fault>
    ensures start { session.new.state.start ≡ session.old.state.start }
    ensures knows { Begins session.old.seat.events session.new.seat.events }
    ensures page { IfOk result (λ page. IfSome page
        (IsPage J.bounds session.new.seat.events session.old.state.start from.now)) }
{
    let to = Key::new(context.alloc, &[255])?;
    // For proofs: it is a way to the regions, and the keys between them rise.
    context.show();
    match page(context.alloc, session, from, &to, context) {
        Ok(Answer::Rows(rows)) => Ok(Some(rows)),
        Ok(Answer::KeyIsLocked(_)) => {
            drop(context.resolve(session, Some(Ts::new(u64::MAX)))?);
            Ok(None)
        }
        _ => Err(Fault::OutOfMemory),
    }
}

// Reads on from a key: where to read on then, if there may be more.
fn read_on<J: JournalId, F: Families + Drop, R: Wait + Drop>(
    session: &mut Session<J>,
    context: &mut Context<J, F, R>,
    from: Key,
    total: &mut u128,
) -> Result<Option<Key>, Fault>
    requires so_far { HasReadTo J.bounds session.old.seat.events session.old.state.start from total.old }
    requires room { total.old + MAX_SCAN_ROWS * BALANCES < 2 ^ 128 }
    ensures start { session.new.state.start ≡ session.old.state.start }
    ensures knows { Begins session.old.seat.events session.new.seat.events }
    ensures next { IfOk result (λ next.
        ReadsOn J.bounds session.new.seat.events session.old.state.start next total.new) }
    ensures most { total.new ≤ total.old + MAX_SCAN_ROWS * BALANCES }
{
    match read_page(session, context, &from)? {
        Some(page) => Ok(add_page(total, page)),
        None => Ok(Some(from)),
    }
}

// Reads all keys.
fn read_all<J: JournalId, F: Families + Drop, R: Wait + Drop>(
    session: &mut Session<J>,
    context: &mut Context<J, F, R>,
) -> Result<u128, Fault>
    ensures knows { Begins session.old.seat.events session.new.seat.events }
    ensures sum { IfOk result (SumsTo J.bounds session.new.seat.events session.old.state.start top) }
{
    let mut total = 0;
    let mut from = Key::new(context.alloc, &[0])?;
    for pages in 0..u64::MAX {
        let _ = pages;
        match read_on(session, context, from, &mut total)? {
            Some(next) => from = next,
            None => return Ok(total),
        }
    }
    Err(Fault::OutOfMemory)
}

// What was read, and the seat, which is free again.
fn ended<J: JournalId>(read: Result<u128, Fault>, seat: Seat<J>) -> Result<(u128, Seat<J>), Broken>
    ensures same { IfOk result (λ r. (read ≡ Ok r.0) × (r.1 ≡ seat)) }
    ensures err { IfErr result (λ e. e ≡ Broken.Memory) }
{
    match read {
        Ok(total) => Ok((total, seat)),
        Err(_) => {
            drop(seat);
            Err(Broken::Memory)
        }
    }
}

/// The sum of the balances of all keys, read at a fresh timestamp, page by page. Locks that stand
/// in the way are resolved as if their time were over.
pub fn read_total<J: JournalId, F: Families + Drop, R: Wait + Drop>(
    seat: Seat<J>,
    context: &mut Context<J, F, R>,
) -> Result<(u128, Seat<J>), Broken>
    ensures total { IfOk result (λ read. IsTotal J.bounds seat.events read.1.events read.0) }
    ensures knows { IfOk result (λ read. Begins seat.events read.1.events) }
    ensures err { IfErr result (λ e. e ≡ Broken.Memory) }
{
    match Session::begin(context.alloc, seat) {
        Err(seat) => {
            drop(seat);
            Err(Broken::Memory)
        }
        Ok(mut session) => {
            let read = read_all(&mut session, context);
            ended(read, session.stop())
        }
    }
}
