//! The first program of docs/LIBRARY.md: two clients on two threads put a word on one key.
#![tactic(auto)]

use std::sync::Wait;
use tx_kv::{Client, Failure, JournalId, Key, Program, Tx, Value, Work, with_store};

/// A transaction: puts a word on a key that is to have none.
#[derive(Drop)]
struct Hello;

impl Work for Hello {
    type Out = ();

    type Err = ();

    fn apply<T: Tx>(&mut self, tx: &mut T) -> Result<(), Failure<()>> {
        let key = Key::new(tx.alloc(), b"hello")?;
        let value = Value::new(tx.alloc(), b"world")?;
        Ok(tx.insert(key, value)?)
    }
}

/// What the clients do: each says hello, on a thread of its own, and one is the first.
#[derive(Drop)]
struct Greet;

impl<R: Wait> Program<R> for Greet {
    type Out = bool;

    type Answer = usize;

    fn run<J: JournalId>(&self, client: &mut Client<'_, J, R>) -> bool {
        client.update(&mut Hello).is_ok()
    }

    fn end<J: JournalId>(self, _: &mut Client<'_, J, R>, first: Vec<bool>) -> usize {
        first.into_iter().filter(|is| *is).count()
    }
}

fn main(rt: HostRuntime) -> anyhow::Result<()> {
    let first = with_store(&rt, rt.alloc(), &[b"m"], 2, Greet)?;
    println!(rt; "{first} of 2 was the first")?;
    Ok(())
}
