//! Names that are each given once, by an index that is unique: two clients sign users up on two
//! threads, both under the same names. Whoever comes first has the name, and only that user a row.
use std::sync::Wait;
use std::thread::Threads;
use tx_kv::{
    Client, Failure, JournalId, Key, NotUpdated, Program, Stop, Tx, Value, Work, with_store,
};

// How many names there are.
const NAMES: u8 = 10;

// The key of a user, or of a name in the index.
fn key_of<T: Tx>(tx: &T, table: u8, number: u8) -> Result<Key, Stop> {
    Ok(Key::new(tx.alloc(), &[table, number])?)
}

/// Signs a user up under a name.
#[derive(Drop)]
struct SignUp {
    user: u8,
    name: u8,
}

impl Work for SignUp {
    type Out = ();

    type Err = ();

    fn apply<T: Tx>(&mut self, tx: &mut T) -> Result<(), Failure<()>> {
        let user = Value::new(tx.alloc(), &[self.user])?;
        let name = Value::new(tx.alloc(), &[self.name])?;
        tx.insert(key_of(tx, b'n', self.name)?, user)?;
        Ok(tx.put(key_of(tx, b'u', self.user)?, name)?)
    }
}

/// Whether each name leads to a user who has it, and no other user is there.
#[derive(Drop)]
struct Check;

impl Work for Check {
    type Out = bool;

    type Err = ();

    fn apply<T: Tx>(&mut self, tx: &mut T) -> Result<bool, Failure<()>> {
        let (from, to) = (key_of(tx, b'n', 0)?, key_of(tx, b'n', u8::MAX)?);
        let names = tx.scan(&from, &to, 100)?;
        for row in names.as_slice() {
            let user = row.value.as_bytes().first().copied().unwrap_or(0);
            let found = tx.get(&key_of(tx, b'u', user)?)?;
            let name = found.and_then(|value| value.as_bytes().first().copied());
            if name != row.key.as_bytes().get(1).copied() {
                return Ok(false);
            }
        }
        let (from, to) = (key_of(tx, b'u', 0)?, key_of(tx, b'u', u8::MAX)?);
        let users = tx.scan(&from, &to, 100)?;
        Ok(users.as_slice().len() == names.as_slice().len())
    }
}

// Whether the index agrees with the users, where it could be looked at.
fn is_right<J: JournalId, R: Wait>(client: &mut Client<'_, J, R>) -> Option<bool> {
    Some(client.update(&mut Check).ok()?.value)
}

/// Each client signs users of its own up under all names.
#[derive(Drop)]
struct Office;

impl<R: Wait> Program<R> for Office {
    /// How many it signed up, and how often the name was taken.
    type Out = (u8, u8);

    type Answer = (u8, u8, bool);

    fn run<J: JournalId>(&self, client: &mut Client<'_, J, R>) -> (u8, u8) {
        let (mut signed, mut taken): (u8, u8) = (0, 0);
        for name in 0..NAMES {
            let user = name * 2 + (client.number() % 2) as u8;
            match client.update(&mut SignUp { user, name }) {
                Ok(_) => signed = signed.saturating_add(1),
                Err(NotUpdated::Stopped(Stop::AlreadyExists(_))) => taken = taken.saturating_add(1),
                Err(_) => {}
            }
        }
        (signed, taken)
    }

    fn end<J: JournalId>(
        self,
        client: &mut Client<'_, J, R>,
        each: Vec<(u8, u8)>,
    ) -> (u8, u8, bool) {
        let (mut signed, mut taken): (u8, u8) = (0, 0);
        for (some, others) in each {
            signed = signed.saturating_add(some);
            taken = taken.saturating_add(others);
        }
        (signed, taken, is_right(client) == Some(true))
    }
}

/// Opens a store of three regions, and has two clients sign users up in it.
pub fn show<R>(rt: &R) -> anyhow::Result<()>
where
    R: Print + AllocGlobal + Threads + Wait + Sync,
{
    let (signed, taken, right) = with_store(rt, rt.alloc(), &[b"n\x05", b"p"], 2, Office)?;
    println!(rt; "{signed} signed up, {taken} times a name was taken, all is right: {right}")?;
    Ok(())
}
