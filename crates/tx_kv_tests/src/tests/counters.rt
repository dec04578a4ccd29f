//! What is counted of updates, and which clients there are.
use super::Put;
use std::sync::Wait;
use std::test::Fail;
use tx_kv::{
    Client, Failure, JournalId, Key, NotUpdated, Program, Stats, Tx, Value, Work, with_store,
};

/// How often each client puts one more on the key `n`.
const TIMES: u64 = 300;

/// Puts one more on a key that all clients change.
#[derive(Drop)]
struct More;

impl Work for More {
    type Out = ();

    type Err = ();

    fn apply<T: Tx>(&mut self, tx: &mut T) -> Result<(), Failure<()>> {
        let key = Key::new(tx.alloc(), b"n")?;
        let before = match tx.get(&key)? {
            Some(value) => tx_kv::unpack_number(&value).unwrap_or(0),
            None => 0,
        };
        let more = tx_kv::pack_number(tx.alloc(), before.saturating_add(1))?;
        Ok(tx.put(key, more)?)
    }
}

/// Only reads.
#[derive(Drop)]
struct Look;

impl Work for Look {
    type Out = Option<Value>;

    type Err = ();

    fn apply<T: Tx>(&mut self, tx: &mut T) -> Result<Option<Value>, Failure<()>> {
        let key = Key::new(tx.alloc(), b"n")?;
        Ok(tx.get(&key)?)
    }
}

/// Clients that meet each other; each counts how many tries of its own came to nothing.
#[derive(Drop)]
struct Story;

impl<R: Wait> Program<R> for Story {
    type Out = u64;

    type Answer = Option<(u64, Stats, u64)>;

    fn run<J: JournalId>(&self, client: &mut Client<'_, J, R>) -> u64 {
        let mut vain: u64 = 0;
        for _ in 0..TIMES {
            let told = client.update(&mut More);
            vain = vain.saturating_add(told.map_or(1_000_000, |told| u64::from(told.retries)));
        }
        vain
    }

    fn end<J: JournalId>(self, client: &mut Client<'_, J, R>, outs: Vec<u64>) -> Self::Answer {
        if outs.len() != client.clients() || client.number() != client.clients() {
            return None;
        }
        let vain = outs.into_iter().fold(0, u64::saturating_add);
        let read = client.update(&mut Look).ok()?;
        let refused = client.update(&mut Put(0));
        if !matches!(refused, Err(NotUpdated::Own(_))) || read.commit.is_some() {
            return None;
        }
        Some((vain, client.stats(), tx_kv::unpack_number(&read.value?)?))
    }
}

#[test]
fn tries_are_counted(rt: HostRuntime) -> Result<(), Fail> {
    let told = with_store(&rt, rt.alloc(), &[b"m"], 3, Story);
    let Ok(Some((vain, stats, sum))) = told else {
        assert!(rt; false);
        return Ok(());
    };
    assert!(rt; sum == 3 * TIMES);
    assert!(rt; stats.commits == 3 * TIMES && stats.reads == 1 && stats.refused == 1);
    assert!(rt; stats.retries == vain && stats.tries == 3 * TIMES + 2 + vain);
    Ok(())
}
