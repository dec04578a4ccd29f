//! A bank whose accounts are a table: the key of each is the table's name and the account's number,
//! so that the table is a range. Two clients move money on two threads, out of order and often of
//! more than there is.
use std::alloc::Global;
use std::sync::Wait;
use std::thread::Threads;
use tx_kv::*;
use tx_tuple::Part::{Text, Unsigned};
use tx_tuple::pack;

// How many accounts there are, and what each has at first.
const ACCOUNTS: u64 = 12;

const FIRST: u64 = 100;

// The key of an account.
fn account(alloc: Global, number: u64) -> Result<Key, Fault> {
    pack(alloc, &[Text("account"), Unsigned(number)])
}

/// Opens the accounts, or moves an amount from one to another: refused where that has less.
#[derive(Drop)]
enum Order {
    Open,
    Move(u64, u64, u64),
}

impl Work for Order {
    type Out = ();

    type Err = ();

    fn apply<T: Tx>(&mut self, tx: &mut T) -> Result<(), Failure<()>> {
        let alloc = tx.alloc();
        let Order::Move(from, to, amount) = *self else {
            for number in 0..ACCOUNTS {
                tx.insert(account(alloc, number)?, pack_number(alloc, FIRST)?)?;
            }
            return Ok(());
        };
        let (from, to) = (account(alloc, from)?, account(alloc, to)?);
        let (Some(less), Some(more)) = (get_number(tx, &from)?, get_number(tx, &to)?) else {
            return Err(Failure::Own(()));
        };
        let less = less.checked_sub(amount).ok_or(Failure::Own(()))?;
        let more = more.checked_add(amount).ok_or(Failure::Own(()))?;
        if from != to {
            put_number(tx, from, less)?;
            put_number(tx, to, more)?;
        }
        Ok(())
    }
}

/// A bank that is opened, and in which money is moved then.
#[derive(Drop)]
struct Bank;

impl<R: Wait + Print> Program<R> for Bank {
    /// Whether a transfer was refused.
    type Out = bool;

    type Answer = anyhow::Result<()>;

    fn begin<J: JournalId>(&mut self, client: &mut Client<'_, J, R>) {
        drop(client.update(&mut Order::Open));
    }

    fn run<J: JournalId>(&self, client: &mut Client<'_, J, R>) -> bool {
        let mut refused = false;
        for n in 0..60u64 {
            let to = (n * 5 + 1 + client.number() as u64 % 2) % ACCOUNTS;
            let mut order = Order::Move(n % ACCOUNTS, to, n * 7 % 90);
            refused |= client.update(&mut order).is_err();
        }
        refused
    }

    fn end<J: JournalId>(self, client: &mut Client<'_, J, R>, refused: Vec<bool>) -> Self::Answer {
        let table = pack(client.alloc(), &[Text("account")])?;
        let rows = client.view()?.range_prefix(table.as_bytes())?;
        let all = sum_of(rows.as_slice());
        let (accounts, poor, rt) = (rows.len(), refused.contains(&true), client.rt());
        Ok(println!(rt; "{accounts} accounts, {all} in all, some had too little: {poor}")?)
    }
}

/// Opens a store of two regions, and has two clients move money in it.
pub fn show<R: Print + AllocGlobal + Threads + Wait + Sync>(rt: &R) -> anyhow::Result<()> {
    let middle = account(rt.alloc(), ACCOUNTS / 2)?;
    with_store(rt, rt.alloc(), &[middle.as_bytes()], 2, Bank)?
}
