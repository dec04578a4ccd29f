//! Several keys at once, and ranges from their end.
use crate::tests::ranges::{Fill, key_of, put};
use std::sync::Wait;
use std::test::Fail;
use tx_kv::{
    Client, Failure, Fault, JournalId, Key, KeyValue, Mode, Program, Stop, Terms, Tx, Work,
    with_store,
};

// The numbers of these rows, as their keys say.
fn numbers(rows: &[KeyValue]) -> [u16; 3] {
    let mut found = [0u16; 3];
    for (place, row) in found.iter_mut().zip(rows) {
        if let [_, high, low] = row.key.as_bytes() {
            *place = u16::from_be_bytes([*high, *low]);
        }
    }
    found
}

/// Deletes row 3, and puts 1,500.
#[derive(Drop)]
struct Change;

impl Work for Change {
    type Out = ();

    type Err = ();

    fn apply<T: Tx>(&mut self, tx: &mut T) -> Result<(), Failure<()>> {
        tx.delete(key_of(tx, 3)?)?;
        Ok(put(tx, 1_500)?)
    }
}

/// Deletes row 5, puts 1,501, and reads several keys, the last rows and those of a prefix: whether
/// what was entered lies over them.
#[derive(Drop)]
struct Ask;

impl Work for Ask {
    type Out = bool;

    type Err = ();

    fn apply<T: Tx>(&mut self, tx: &mut T) -> Result<bool, Failure<()>> {
        tx.delete(key_of(tx, 5)?)?;
        put(tx, 1_501)?;
        let mut keys = Vec::new(tx.alloc());
        for n in [5, 3, 1_501, 4] {
            keys.push(key_of(tx, n)?)?;
        }
        let found = tx.get_many(keys.as_slice())?;
        let newest = tx.range_back(None, None, 2)?;
        let items = tx.range_prefix(b"k\x00")?.len();
        let none = tx.range_prefix(b"");
        let several = matches!(found.as_slice(), [None, None, Some(_), Some(_)]);
        let last = newest.len() == 2 && numbers(newest.as_slice()) == [1_501, 1_500, 0];
        let refused = matches!(none, Err(Stop::Refused(Fault::KeyLength)));
        Ok(several && last && items == 254 && refused)
    }
}

// Whether a client finds several keys, and the last rows.
fn seen<J: JournalId, R: Wait>(client: &mut Client<'_, J, R>) -> Result<bool, Stop> {
    let mut keys = Vec::new(client.alloc());
    for low in [3, 2] {
        keys.push(Key::new(client.alloc(), &[b'k', 0, low])?)?;
    }
    let found = client.view()?.get_many(keys.as_slice())?;
    let newest = client.view()?.range_back(None, None, 2)?;
    let nothing = client.view()?.get_many(&[])?;
    let mut view = client.view()?;
    let from = Key::new(view.alloc(), &[b'k', 2, 84])?;
    let to = Key::new(view.alloc(), &[b'k', 2, 87])?;
    let few = view.range_back(Some(from), Some(to), 9)?;
    let none = view.range_back(None, None, 0)?;
    let items = view.range_prefix(b"k\x02")?.len();
    let several = matches!(found.as_slice(), [None, Some(_)]) && nothing.is_empty();
    let last = newest.len() == 2 && numbers(newest.as_slice()) == [1_500, 599, 0];
    let part = few.len() == 3 && numbers(few.as_slice()) == [598, 597, 596];
    Ok(several && last && part && none.is_empty() && items == 88)
}

#[derive(Drop)]
struct Story;

impl<R: Wait> Program<R> for Story {
    type Out = ();

    type Answer = Option<bool>;

    fn run<J: JournalId>(&self, client: &mut Client<'_, J, R>) {
        let _ = client;
    }

    fn end<J: JournalId>(self, client: &mut Client<'_, J, R>, _: Vec<()>) -> Option<bool> {
        let terms = Terms {
            mode: Mode::TwoPhase,
            ttl: 1_000,
            max_commit: None,
        };
        client.set_terms(terms, 0);
        drop(client.update(&mut Fill(0)).ok()?);
        drop(client.update(&mut Change).ok()?);
        if !seen(client).ok()? {
            return Some(false);
        }
        Some(client.update(&mut Ask).ok()?.value)
    }
}

#[test]
fn several_are_found_and_the_last_come_first(rt: HostRuntime) -> Result<(), Fail> {
    let told = with_store(&rt, rt.alloc(), &[b"k\x01", b"m"], 1, Story);
    assert!(rt; matches!(told, Ok(Some(true))));
    Ok(())
}
