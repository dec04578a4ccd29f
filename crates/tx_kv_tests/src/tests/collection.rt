//! A collection drops what nobody reads any more, and spares what a client still does.
use super::{Put, byte_at};
use std::sync::Wait;
use std::sync::atomic::{AtomicU64, Ordering};
use std::test::Fail;
use tx_kv::{Client, JournalId, Key, Program, Stop, Ts, with_store};

/// Two bytes are put one over the other, and what lies beneath is collected.
#[derive(Drop)]
struct Story;

// What is dropped, what is seen after that, and whether what was before is refused.
fn dropped<J: JournalId, R: Wait>(
    client: &mut Client<'_, J, R>,
) -> Option<(u64, Option<u8>, bool)> {
    drop(client.update(&mut Put(1)).ok()?);
    let one = client.timestamp().ok()?;
    drop(client.update(&mut Put(2)).ok()?);
    let two = client.timestamp().ok()?;
    let spared = client.collect(one).ok()?;
    if spared.dropped.records != 0 || byte_at(client, one).ok()? != Some(1) {
        return None;
    }
    let collected = client.collect(Ts::new(u64::MAX)).ok()?;
    let refused = matches!(byte_at(client, one), Err(Stop::BelowSafePoint));
    Some((
        collected.dropped.records,
        byte_at(client, two).ok()?,
        refused,
    ))
}

impl<R: Wait> Program<R> for Story {
    type Out = ();

    type Answer = Option<(u64, Option<u8>, bool)>;

    fn run<J: JournalId>(&self, client: &mut Client<'_, J, R>) {
        let _ = client;
    }

    fn end<J: JournalId>(
        self,
        client: &mut Client<'_, J, R>,
        _: Vec<()>,
    ) -> Option<(u64, Option<u8>, bool)> {
        dropped(client)
    }
}

#[test]
fn what_lies_beneath_is_dropped(rt: HostRuntime) -> Result<(), Fail> {
    let told = with_store(&rt, rt.alloc(), &[b"m"], 1, Story);
    assert!(rt; matches!(told, Ok(Some((1, Some(2), true)))));
    Ok(())
}

// How often a client looks whether the other has come as far as it waits for.
const TURNS: u64 = 1_000_000_000;

/// One client has a view while the other collects: it still reads what it saw.
#[derive(Drop)]
struct Held {
    step: AtomicU64,
}

impl Held {
    // Waits for a step of the other client, so many turns.
    fn wait(&self, step: u64) {
        for _ in 0..TURNS {
            if self.step.load(Ordering::SeqCst) >= step {
                return;
            }
        }
    }

    fn come_to(&self, step: u64) {
        self.step.store(step, Ordering::SeqCst);
    }
}

// What a view still shows after another client put a byte and collected.
fn hold<J: JournalId, R: Wait>(held: &Held, client: &mut Client<'_, J, R>) -> Option<u8> {
    let key = Key::new(client.alloc(), b"a").ok()?;
    let mut view = client.view().ok()?;
    held.come_to(1);
    held.wait(2);
    let found = view.get(&key).ok()?;
    found.and_then(|value| value.as_bytes().first().copied())
}

// Puts a byte, and collects: how many records were dropped.
fn take<J: JournalId, R: Wait>(held: &Held, client: &mut Client<'_, J, R>) -> Option<u8> {
    held.wait(1);
    let updated = client.update(&mut Put(2));
    let collected = client.collect(Ts::new(u64::MAX));
    held.come_to(2);
    drop(updated.ok()?);
    Some(collected.ok()?.dropped.records.min(9) as u8)
}

impl<R: Wait> Program<R> for Held {
    type Out = Option<u8>;

    type Answer = Option<bool>;

    fn begin<J: JournalId>(&mut self, client: &mut Client<'_, J, R>) {
        drop(client.update(&mut Put(1)));
    }

    fn run<J: JournalId>(&self, client: &mut Client<'_, J, R>) -> Option<u8> {
        if client.number() == 0 {
            hold(self, client)
        } else {
            take(self, client)
        }
    }

    fn end<J: JournalId>(
        self,
        client: &mut Client<'_, J, R>,
        outs: Vec<Option<u8>>,
    ) -> Option<bool> {
        // What is committed may lie just above the last timestamp: one more is drawn.
        client.timestamp().ok()?;
        let last = client.collect(Ts::new(u64::MAX)).ok()?.dropped.records;
        match outs.as_slice() {
            [Some(held), Some(taken)] => Some(*held == 1 && *taken == 0 && last == 1),
            _ => None,
        }
    }
}

#[test]
fn a_view_is_spared(rt: HostRuntime) -> Result<(), Fail> {
    let held = Held {
        step: AtomicU64::new(0),
    };
    let told = with_store(&rt, rt.alloc(), &[b"m"], 2, held);
    assert!(rt; matches!(told, Ok(Some(true))));
    Ok(())
}

/// A timestamp is kept over updates and collections; then a client collects by itself.
#[derive(Drop)]
struct Kept;

// What is seen at a timestamp that is kept while others are written and collected, whether the
// collection rose to it, and whether it can be read no more once it is let go.
fn spared<J: JournalId, R: Wait>(client: &mut Client<'_, J, R>) -> Option<(u8, bool, bool)> {
    drop(client.update(&mut Put(1)).ok()?);
    let Ok(pin) = client.pin() else {
        return None;
    };
    drop(client.update(&mut Put(2)).ok()?);
    drop(client.update(&mut Put(3)).ok()?);
    client.timestamp().ok()?;
    let collected = client.collect(Ts::new(u64::MAX)).ok()?;
    let at = pin.at();
    let stats = client.stats();
    let told = collected.safe == at && collected.oldest == Some(at);
    let held = told && stats.oldest == Some(at) && stats.safe == at;
    let before = byte_at(client, at).ok()??;
    drop(pin);
    let safe = client.stats().safe;
    let free = client.collect(Ts::new(u64::MAX)).ok()?;
    let freed = free.safe == safe && free.oldest.is_none() && at < safe;
    let gone = matches!(byte_at(client, at), Err(Stop::BelowSafePoint));
    Some((before, held && freed, gone))
}

// Whether a client that is to collect after each two updates has collected, and what it counted.
fn collected_itself<J: JournalId, R: Wait>(client: &mut Client<'_, J, R>) -> Option<bool> {
    let before = client.stats();
    client.collect_every(2);
    for byte in 4..10u8 {
        let updated = client.update(&mut Put(byte)).ok()?;
        if updated.retries != 0 {
            return None;
        }
    }
    let stats = client.stats();
    let wrote = stats.commits.checked_sub(before.commits)? == 6 && stats.retries == 0;
    Some(wrote && stats.collections.checked_sub(before.collections)? == 2 && stats.dropped > 0)
}

impl<R: Wait> Program<R> for Kept {
    type Out = ();

    type Answer = Option<bool>;

    fn run<J: JournalId>(&self, client: &mut Client<'_, J, R>) {
        let _ = client;
    }

    fn end<J: JournalId>(self, client: &mut Client<'_, J, R>, _: Vec<()>) -> Option<bool> {
        let seen = spared(client)?;
        let collected = collected_itself(client)?;
        Some(seen == (1, true, true) && collected)
    }
}

#[test]
fn a_timestamp_is_kept(rt: HostRuntime) -> Result<(), Fail> {
    let told = with_store(&rt, rt.alloc(), &[b"m"], 1, Kept);
    assert!(rt; matches!(told, Ok(Some(true))));
    Ok(())
}
