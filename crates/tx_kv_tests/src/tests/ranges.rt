//! Ranges of more rows than a page has: with what was entered over them, and as they were before.
use std::sync::Wait;
use std::test::Fail;
use tx_kv::{
    Client, Failure, JournalId, Key, KeyRange, Mode, Program, Stop, Terms, Ts, Tx, Value, Work,
    with_store,
};

// How many rows one transaction puts.
const ROWS: u16 = 600;

// The key of a number, in the order of the numbers.
pub(super) fn key_of<T: Tx>(tx: &T, n: u16) -> Result<Key, Stop> {
    let [high, low] = n.to_be_bytes();
    Ok(Key::new(tx.alloc(), &[b'k', high, low])?)
}

pub(super) fn put<T: Tx>(tx: &mut T, n: u16) -> Result<(), Stop> {
    let key = key_of(tx, n)?;
    let value = Value::new(tx.alloc(), b"x")?;
    tx.put(key, value)
}

/// Puts the rows of so many numbers from this on.
#[derive(Drop)]
pub(super) struct Fill(pub(super) u16);

impl Work for Fill {
    type Out = ();

    type Err = ();

    fn apply<T: Tx>(&mut self, tx: &mut T) -> Result<(), Failure<()>> {
        for n in 0..ROWS {
            put(tx, n.saturating_add(self.0))?;
        }
        Ok(())
    }
}

/// Deletes row 3, locks 7, puts 1,500, and reads ranges: how many rows each has.
#[derive(Drop)]
struct Look;

impl Work for Look {
    type Out = [usize; 6];

    type Err = ();

    fn apply<T: Tx>(&mut self, tx: &mut T) -> Result<[usize; 6], Failure<()>> {
        let before = tx.range(None, None)?.len();
        tx.delete(key_of(tx, 3)?)?;
        tx.lock(key_of(tx, 7)?)?;
        put(tx, 1_500)?;
        let after = tx.range(None, None)?.len();
        let (from, to) = (key_of(tx, 2)?, key_of(tx, 8)?);
        let part = tx.range(Some(from), Some(to))?.len();
        let last = key_of(tx, 1_190)?;
        let rest = tx.range(Some(last), None)?.len();
        let first = key_of(tx, 1_100)?;
        let low = tx.range(None, Some(first))?.len();
        let (from, to) = (key_of(tx, 8)?, key_of(tx, 2)?);
        let none = tx.range(Some(from), Some(to))?.len();
        Ok([before, after, part, rest, low, none])
    }
}

// How many rows the pages of a range have, and how many pages there are.
fn paged<T: Tx>(tx: &mut T, range: KeyRange, limit: u32) -> Result<[usize; 2], Stop> {
    let mut found = [0usize; 2];
    let mut rest = Some(range);
    for _ in 0..u16::MAX {
        let Some(range) = rest.take() else {
            break;
        };
        let page = tx.page(range, limit)?;
        found = [
            found[0].saturating_add(page.rows.len()),
            found[1].saturating_add(1),
        ];
        rest = page.rest;
    }
    Ok(found)
}

/// Deletes row 3, puts 1,500, and goes over all rows by pages of 100; and over those of a prefix.
#[derive(Drop)]
struct Turn;

impl Work for Turn {
    type Out = ([usize; 2], [usize; 2]);

    type Err = ();

    fn apply<T: Tx>(&mut self, tx: &mut T) -> Result<([usize; 2], [usize; 2]), Failure<()>> {
        tx.delete(key_of(tx, 3)?)?;
        put(tx, 1_500)?;
        let all = paged(tx, KeyRange::new(tx.alloc(), None, None)?, 100)?;
        let some = paged(tx, KeyRange::prefix(tx.alloc(), b"k\x02")?, 100)?;
        Ok((all, some))
    }
}

// How many rows the pages of a view have.
fn pages_seen<J: JournalId, R: Wait>(client: &mut Client<'_, J, R>) -> Result<[usize; 2], Stop> {
    let mut rest = Some(KeyRange::prefix(client.alloc(), b"k")?);
    let mut view = client.view()?;
    let mut found = [0usize; 2];
    for _ in 0..u16::MAX {
        let Some(range) = rest.take() else {
            break;
        };
        let page = view.page(range, 100)?;
        found = [
            found[0].saturating_add(page.rows.len()),
            found[1].saturating_add(1),
        ];
        rest = page.rest;
    }
    Ok(found)
}

// How many rows a client sees as it is now, and before it wrote the second half.
fn rows_seen<J: JournalId, R: Wait>(
    client: &mut Client<'_, J, R>,
    half: Ts,
) -> Result<[usize; 4], Stop> {
    let from = Key::new(client.alloc(), b"k\x02")?;
    let to = Key::new(client.alloc(), b"k\x04")?;
    let now = client.view()?.range(None, None)?.len();
    let before = client.view_at(half).range(None, None)?.len();
    let mut view = client.view()?;
    let part = view.range(Some(from.clone()?), Some(to.clone()?))?.len();
    let none = view.range(Some(to), Some(from))?.len();
    Ok([now, before, part, none])
}

#[derive(Drop)]
struct Story;

impl<R: Wait> Program<R> for Story {
    type Out = ();

    type Answer = Option<bool>;

    fn run<J: JournalId>(&self, client: &mut Client<'_, J, R>) {
        let _ = client;
    }

    fn end<J: JournalId>(self, client: &mut Client<'_, J, R>, _: Vec<()>) -> Option<bool> {
        let terms = Terms {
            mode: Mode::TwoPhase,
            ttl: 1_000,
            max_commit: None,
        };
        client.set_terms(terms, 0);
        drop(client.update(&mut Fill(0)).ok()?);
        let half = client.timestamp().ok()?;
        drop(client.update(&mut Fill(ROWS)).ok()?);
        let looked = client.update(&mut Look).ok()?;
        let found = looked.value;
        let seen = rows_seen(client, half).ok()?;
        let turned = client.update(&mut Turn).ok()?.value;
        let paged = pages_seen(client).ok()?;
        Some(
            found == [1_200, 1_200, 5, 11, 1_099, 0]
                && seen == [1_200, 600, 512, 0]
                && turned == ([1_200, 12], [256, 3])
                && paged == [1_200, 13],
        )
    }
}

#[test]
fn ranges_have_all_rows(rt: HostRuntime) -> Result<(), Fail> {
    let told = with_store(&rt, rt.alloc(), &[b"k\x03", b"m"], 1, Story);
    assert!(rt; matches!(told, Ok(Some(true))));
    Ok(())
}
