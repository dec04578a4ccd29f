//! Money is moved between accounts by two clients on two threads. Whatever order the transfers come
//! in, what the accounts have together stays the same.
use std::sync::Wait;
use std::thread::Threads;
use tx_kv::{Client, Failure, JournalId, Key, Program, Stop, Tx, Value, Work, with_store};

// The key of an account: two lie in each of the regions.
fn key_of<T: Tx>(tx: &T, account: u8) -> Result<Key, Stop> {
    let name = [b"ann", b"bob", b"sue", b"tom"][usize::from(account) % 4];
    Ok(Key::new(tx.alloc(), name)?)
}

// What an account has: at first 100.
fn balance<T: Tx>(tx: &mut T, account: u8) -> Result<u8, Stop> {
    let key = key_of(tx, account)?;
    let value = tx.get(&key)?;
    Ok(value.map_or(100, |held| held.as_bytes().first().copied().unwrap_or(0)))
}

// Enters what an account then has; none is too little, or too much.
fn enter<T: Tx>(tx: &mut T, account: u8, balance: Option<u8>) -> Result<(), Failure<Poor>> {
    let balance = balance.ok_or(Failure::Own(Poor))?;
    let value = Value::new(tx.alloc(), &[balance])?;
    Ok(tx.put(key_of(tx, account)?, value)?)
}

/// Moves an amount from one account to another, where that has so much.
#[derive(Drop)]
struct Transfer(u8, u8, u8);

/// An account has too little, or the other would have too much.
#[derive(Drop)]
struct Poor;

impl Work for Transfer {
    type Out = ();

    type Err = Poor;

    fn apply<T: Tx>(&mut self, tx: &mut T) -> Result<(), Failure<Poor>> {
        let Transfer(from, to, amount) = *self;
        let (less, more) = (balance(tx, from)?, balance(tx, to)?);
        enter(tx, from, less.checked_sub(amount))?;
        enter(tx, to, more.checked_add(amount))
    }
}

/// What the accounts have together.
#[derive(Drop)]
struct Total;

impl Work for Total {
    type Out = u32;

    type Err = Poor;

    fn apply<T: Tx>(&mut self, tx: &mut T) -> Result<u32, Failure<Poor>> {
        let (ann, bob) = (balance(tx, 0)?, balance(tx, 1)?);
        let (sue, tom) = (balance(tx, 2)?, balance(tx, 3)?);
        Ok([ann, bob, sue, tom].iter().map(|b| u32::from(*b)).sum())
    }
}

/// Fifty transfers a client.
#[derive(Drop)]
struct Bank;

impl<R: Wait> Program<R> for Bank {
    type Out = ();

    type Answer = Option<u32>;

    fn run<J: JournalId>(&self, client: &mut Client<'_, J, R>) {
        for n in 0..50u8 {
            let to = n.wrapping_add(1 + (client.number() % 2) as u8) % 4;
            drop(client.update(&mut Transfer(n % 4, to, n % 7)));
        }
    }

    fn end<J: JournalId>(self, client: &mut Client<'_, J, R>, _: Vec<()>) -> Option<u32> {
        Some(client.update(&mut Total).ok()?.value)
    }
}

/// Opens a store of two regions, and has two clients move money in it.
pub fn show<R>(rt: &R) -> anyhow::Result<()>
where
    R: Print + AllocGlobal + Threads + Wait + Sync,
{
    let total = with_store(rt, rt.alloc(), &[b"m"], 2, Bank)?.unwrap_or(0);
    Ok(println!(rt; "4 accounts, {total} in all")?)
}
