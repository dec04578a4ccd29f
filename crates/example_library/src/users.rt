//! A table with an index that is unique: a user's row lies at its number, and an entry of each
//! address leads to the user that has it. Two clients settle users on two threads, both at the same
//! addresses; then one user moves, and its old address is free.
use std::alloc::Global;
use std::sync::Wait;
use std::thread::Threads;
use tx_kv::*;
use tx_tuple::Part::{Bytes, Text, Unsigned};
use tx_tuple::pack;

// The addresses that all users want, and two that nobody has.
const WANTED: [&str; 5] = ["ann@hill", "bob@lake", "eve@mill", "sue@park", "tom@road"];

const FREE: [&str; 2] = ["amy@glen", "zoe@dale"];

// The key of an address in the index.
fn entry(alloc: Global, address: &[u8]) -> Result<Key, Fault> {
    pack(alloc, &[Text("address"), Bytes(address)])
}

/// Gives a user an address, in place of its own where it has one.
#[derive(Drop)]
struct Settle(u64, &'static str);

impl Work for Settle {
    type Out = ();

    type Err = ();

    fn apply<T: Tx>(&mut self, tx: &mut T) -> Result<(), Failure<()>> {
        let (alloc, address) = (tx.alloc(), self.1.as_bytes());
        let user = pack(alloc, &[Text("user"), Unsigned(self.0)])?;
        if let Some(old) = tx.get(&user)? {
            tx.delete(entry(alloc, old.as_bytes())?)?;
        }
        tx.insert(entry(alloc, address)?, Value::new(alloc, user.as_bytes())?)?;
        Ok(tx.put(user, Value::new(alloc, address)?)?)
    }
}

// How many users there are, and how many addresses lead to a user who has them.
fn counted<J: JournalId, R: Wait>(view: &mut View<'_, '_, J, R>) -> Result<(usize, usize), Stop> {
    let (alloc, mut right) = (view.alloc(), 0usize);
    let table = pack(alloc, &[Text("user")])?;
    let index = pack(alloc, &[Text("address")])?;
    for row in view.range_prefix(index.as_bytes())? {
        let user = view.get(&Key::new(alloc, row.value.as_bytes())?)?;
        let address = user.as_ref().map_or(&b""[..], Value::as_bytes);
        right = right.saturating_add(usize::from(row.key == entry(alloc, address)?));
    }
    Ok((view.range_prefix(table.as_bytes())?.len(), right))
}

/// Each client settles users of its own at all addresses.
#[derive(Drop)]
struct Town;

impl<R: Wait + Print> Program<R> for Town {
    /// How often an address was taken.
    type Out = u32;

    type Answer = anyhow::Result<()>;

    fn run<J: JournalId>(&self, client: &mut Client<'_, J, R>) -> u32 {
        let mut taken: u32 = 0;
        for (at, address) in WANTED.iter().enumerate() {
            let number = (2 * (at % 5) + client.number() % 2) as u64;
            let told = client.update(&mut Settle(number, address));
            let is = matches!(told, Err(NotUpdated::Stopped(Stop::AlreadyExists(_))));
            taken = taken.saturating_add(u32::from(is));
        }
        taken
    }

    fn end<J: JournalId>(self, client: &mut Client<'_, J, R>, taken: Vec<u32>) -> Self::Answer {
        let (users, right) = counted(&mut client.view()?)?;
        let taken = taken.into_iter().fold(0, u32::saturating_add);
        // A user settles, and moves; then another settles at its old address.
        client.update(&mut Settle(10, FREE[0]))?;
        client.update(&mut Settle(10, FREE[1]))?;
        let free = client.update(&mut Settle(11, FREE[0])).is_ok();
        let rt = client.rt();
        println!(rt;
            "{users} users, {right} entries lead to them, {taken} times an address was taken"
        )?;
        Ok(println!(rt; "who moves leaves an address free: {free}")?)
    }
}

/// Opens a store of two regions, the index and the table, and settles users in it.
pub fn show<R: Print + AllocGlobal + Threads + Wait + Sync>(rt: &R) -> anyhow::Result<()> {
    let table = pack(rt.alloc(), &[Text("user")])?;
    with_store(rt, rt.alloc(), &[table.as_bytes()], 2, Town)?
}
