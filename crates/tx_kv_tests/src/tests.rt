//! A store that is opened, written, and read as it was before.
mod collection;
mod counters;
mod many;
mod ranges;
mod sizes;

use std::sync::Wait;
use std::test::Fail;
use tx_kv::{
    Client, Failure, Fault, JournalId, Key, NotUpdated, Program, Stop, Ts, Tx, Unopened, Value,
    Work, with_store,
};

/// Puts a byte on the key `a`; refuses 0.
#[derive(Drop)]
struct Put(u8);

/// It was 0.
#[derive(Drop)]
struct Zero;

impl Work for Put {
    type Out = u8;

    type Err = Zero;

    fn apply<T: Tx>(&mut self, tx: &mut T) -> Result<u8, Failure<Zero>> {
        let value = Value::new(tx.alloc(), &[self.0])?;
        tx.put(Key::new(tx.alloc(), b"a")?, value)?;
        if self.0 == 0 {
            return Err(Failure::Own(Zero));
        }
        Ok(self.0)
    }
}

// The byte on the key `a` at a timestamp; none for no value.
fn byte_at<J: JournalId, R: Wait>(
    client: &mut Client<'_, J, R>,
    at: Ts,
) -> Result<Option<u8>, Stop> {
    let key = Key::new(client.alloc(), b"a")?;
    let found = client.view_at(at).get(&key)?;
    Ok(found.and_then(|value| value.as_bytes().first().copied()))
}

/// A byte is put over another; what each timestamp shows is compared.
#[derive(Drop)]
struct Story;

// Puts a byte: the value that came back, where it is committed.
fn put_byte<J: JournalId, R: Wait>(client: &mut Client<'_, J, R>, byte: u8) -> Option<u8> {
    let updated = client.update(&mut Put(byte)).ok()?;
    updated.commit.map(|_| updated.value)
}

// What is seen before anything is put, after one byte and after the second, each at its timestamp,
// all looked at in the end.
fn told<J: JournalId, R: Wait>(client: &mut Client<'_, J, R>) -> Option<[Option<u8>; 3]> {
    let none = client.timestamp().ok()?;
    if put_byte(client, 1) != Some(1) {
        return None;
    }
    let one = client.timestamp().ok()?;
    if put_byte(client, 2) != Some(2) {
        return None;
    }
    let two = client.timestamp().ok()?;
    Some([
        byte_at(client, none).ok()?,
        byte_at(client, one).ok()?,
        byte_at(client, two).ok()?,
    ])
}

// Whether a work that enters a byte and refuses is told so, and the byte from before is still
// there.
fn is_refused<J: JournalId, R: Wait>(client: &mut Client<'_, J, R>) -> Option<bool> {
    let refused = matches!(client.update(&mut Put(0)), Err(NotUpdated::Own(Zero)));
    let now = client.timestamp().ok()?;
    Some(refused && byte_at(client, now).ok()? == Some(2))
}

impl<R: Wait> Program<R> for Story {
    type Out = usize;

    type Answer = bool;

    fn run<J: JournalId>(&self, client: &mut Client<'_, J, R>) -> usize {
        client.number()
    }

    fn end<J: JournalId>(self, client: &mut Client<'_, J, R>, numbers: Vec<usize>) -> bool {
        let seen = told(client) == Some([None, Some(1), Some(2)]);
        let refused = is_refused(client) == Some(true);
        let future = matches!(
            byte_at(client, Ts::new(1_000_000)),
            Err(Stop::Refused(Fault::FutureTimestamp { .. }))
        );
        seen && refused && future && numbers.as_slice() == [0, 1, 2].as_slice()
    }
}

#[test]
fn older_timestamps_show_older_values(rt: HostRuntime) -> Result<(), Fail> {
    let told = with_store(&rt, rt.alloc(), &[b"m"], 3, Story);
    assert!(rt; matches!(told, Ok(true)));
    Ok(())
}

#[test]
fn stores_are_not_opened_otherwise(rt: HostRuntime) -> Result<(), Fail> {
    let falls = with_store(&rt, rt.alloc(), &[b"m", b"f"], 1, Story);
    assert!(rt; matches!(falls, Err(Unopened::NotRising)));
    let many = with_store(&rt, rt.alloc(), &[], 512, Story);
    assert!(rt; matches!(many, Err(Unopened::TooMany)));
    let empty = with_store(&rt, rt.alloc(), &[b""], 1, Story);
    assert!(rt; matches!(empty, Err(Unopened::Refused(Fault::KeyLength))));
    Ok(())
}
