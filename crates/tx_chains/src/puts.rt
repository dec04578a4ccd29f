//! What each transaction put into each key, and what it saw there.
ghost use Rattle.tx_recording.specs.Recordings.{IsRecording};

use std::alloc::{AllocError, Global};
use tx_recording::{RecordedOp, RecordedOutcome, Recording, Span};
use tx_verdict::{Case, Lives, Shown, value_of};
use tx_views::RecordedView;

/// That a transaction put values into a key.
#[derive(Clone, Copy)]
pub struct Put {
    pub txn: u32,
    pub key: u32,
    /// The first view that it has of the key.
    pub view: Option<u32>,
    /// The last value that it put.
    pub last: u32,
}

/// Of all live transactions.
#[derive(Drop)]
pub struct Puts {
    pub all: Vec<Put>,
    /// By the number of the value, which of them put it.
    pub by_value: Vec<Option<u32>>,
}

/// The number, or the greatest of its type.
pub fn number(n: usize) -> u32 {
    if n > 0xffff_ffff {
        0xffff_ffff
    } else {
        n as u32
    }
}

/// The values of a span, none where it is not there.
pub(crate) fn list_at(recording: &Recording, span: Span) -> &[u32] {
    let first = span.first as usize;
    let upto = first + span.count as usize;
    if upto > recording.elements.len() {
        return &recording.elements[0..0];
    }
    &recording.elements[first..upto]
}

/// Sets what is at a place, if there is one.
pub fn put_at<T: Copy + Drop>(items: &mut [T], place: usize, item: T) {
    if place < items.len() {
        items[place] = item;
    }
}

// Marks who put the values of a list as live where nobody knows.
fn show(lives: &mut Lives, case: &Case<'_>, list: &[u32], view: u32) {
    for place in 0..list.len() {
        let Some(Some(owner)) = case.owners.get(list[place] as usize) else {
            continue;
        };
        let Some(transaction) = case.recording.transactions.get(owner.txn as usize) else {
            continue;
        };
        if transaction.outcome == RecordedOutcome::Info {
            let shown = Shown {
                view,
                place: number(place),
            };
            put_at(lives.live.as_mut_slice(), owner.txn as usize, true);
            put_at(lives.shown.as_mut_slice(), owner.txn as usize, shown);
        }
    }
}

// Which transactions are known to have committed.
fn committed(alloc: Global, recording: &Recording) -> Result<Lives, AllocError> {
    let mut live = Vec::new(alloc);
    for txn in 0..recording.transactions.len() {
        live.push(recording.transactions[txn].outcome.is_ok())?;
    }
    let nowhere = Shown { view: 0, place: 0 };
    let shown = vec![in alloc; nowhere; recording.transactions.len()]?;
    Ok(Lives { live, shown })
}

/// Which transactions committed: those that are known to have, and those of which a value was seen.
pub fn lives_of(alloc: Global, case: &Case<'_>) -> Result<Lives, AllocError> {
    let mut lives = committed(alloc, case.recording)?;
    for i in 0..case.views.len() {
        let list = list_at(case.recording, case.views[i].span);
        show(&mut lives, case, list, number(i));
    }
    Ok(lives)
}

/// What was last seen and put, by key.
#[derive(Drop)]
struct Marks {
    // the first view of the transaction at hand
    views: Vec<Option<u32>>,
    // what the transaction at hand put
    puts: Vec<Option<u32>>,
}

// Notes a view of a transaction, unless it has one of the key already.
fn note_view(marks: &mut Marks, views: &[RecordedView], place: usize) {
    let Some(view) = views.get(place) else {
        return;
    };
    let key = view.key as usize;
    let Some(mark) = marks.views.get(key) else {
        return;
    };
    if let Some(old) = mark {
        if let Some(before) = views.get(*old as usize) {
            if before.txn == view.txn {
                return;
            }
        }
    }
    put_at(marks.views.as_mut_slice(), key, Some(number(place)));
}

// The view of a key that a transaction has, if it has one.
fn view_of(marks: &Marks, views: &[RecordedView], txn: u32, key: u32) -> Option<u32> {
    let mark = marks.views.get(key as usize)?;
    let place = (*mark)?;
    let view = views.get(place as usize)?;
    if view.txn == txn { Some(place) } else { None }
}

// What a transaction put into a key, if it did before.
fn put_of(marks: &Marks, puts: &[Put], txn: u32, key: u32) -> Option<u32> {
    let mark = marks.puts.get(key as usize)?;
    let place = (*mark)?;
    let put = puts.get(place as usize)?;
    if put.txn == txn { Some(place) } else { None }
}

// Notes an operation of a transaction.
fn note_op(
    puts: &mut Puts,
    marks: &mut Marks,
    views: &[RecordedView],
    txn: u32,
    op: RecordedOp,
) -> Result<(), AllocError> {
    let Some(value) = value_of(op.act) else {
        return Ok(());
    };
    if let Some(place) = put_of(marks, puts.all.as_slice(), txn, op.key) {
        if let Some(put) = puts.all.get_mut(place as usize) {
            put.last = value;
        }
        put_at(puts.by_value.as_mut_slice(), value as usize, Some(place));
        return Ok(());
    }
    let place = number(puts.all.len());
    puts.all.push(Put {
        txn,
        key: op.key,
        view: view_of(marks, views, txn, op.key),
        last: value,
    })?;
    put_at(marks.puts.as_mut_slice(), op.key as usize, Some(place));
    put_at(puts.by_value.as_mut_slice(), value as usize, Some(place));
    Ok(())
}

// Notes the operations of a transaction.
fn note_ops(
    puts: &mut Puts,
    marks: &mut Marks,
    views: &[RecordedView],
    txn: u32,
    ops: &[RecordedOp],
) -> Result<(), AllocError> {
    for i in 0..ops.len() {
        note_op(puts, marks, views, txn, ops[i])?;
    }
    Ok(())
}

// Notes the views of a transaction, from a place on. The place behind them.
fn note_views(marks: &mut Marks, views: &[RecordedView], txn: u32, from: usize) -> usize {
    for place in from..views.len() {
        if views[place].txn != txn {
            return place;
        }
        note_view(marks, views, place);
    }
    views.len()
}

/// What the live transactions put, in their order.
pub fn puts_of(alloc: Global, case: &Case<'_>, live: &[bool]) -> Result<Puts, AllocError>
    requires { IsRecording case.now.recording.now }
{
    let (recording, views) = (case.recording, case.views);
    let mut puts = Puts {
        all: Vec::new(alloc),
        by_value: vec![in alloc; None; recording.values as usize]?,
    };
    let mut marks = Marks {
        views: vec![in alloc; None; recording.keys as usize]?,
        puts: vec![in alloc; None; recording.keys as usize]?,
    };
    let mut next = 0;
    for txn in 0..recording.transactions.len() {
        next = note_views(&mut marks, views, txn as u32, next);
        if live.get(txn) == Some(&true) {
            note_ops(
                &mut puts,
                &mut marks,
                views,
                txn as u32,
                recording.ops_of(txn),
            )?;
        }
    }
    Ok(puts)
}
