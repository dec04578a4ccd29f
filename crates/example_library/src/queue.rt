//! A queue of jobs in the store, and two clients that take from it on two threads: each takes the
//! least job that is there, until none is left. No job is taken twice.
use std::sync::Wait;
use std::thread::Threads;
use tx_kv::{Client, Failure, JournalId, Key, Program, Stop, Tx, Value, Work, with_store};

// How many jobs there are.
const JOBS: u8 = 20;

// The key of a job.
fn key_of<T: Tx>(tx: &T, job: u8) -> Result<Key, Stop> {
    Ok(Key::new(tx.alloc(), &[b'j', job])?)
}

/// Adds a job to the queue, once.
#[derive(Drop)]
struct Add(u8);

impl Work for Add {
    type Out = ();

    type Err = ();

    fn apply<T: Tx>(&mut self, tx: &mut T) -> Result<(), Failure<()>> {
        let value = Value::new(tx.alloc(), b"to do")?;
        Ok(tx.insert(key_of(tx, self.0)?, value)?)
    }
}

/// Takes the least job, if one is there.
#[derive(Drop)]
struct Take;

impl Work for Take {
    type Out = Option<u8>;

    type Err = ();

    fn apply<T: Tx>(&mut self, tx: &mut T) -> Result<Option<u8>, Failure<()>> {
        let (from, to) = (key_of(tx, 0)?, key_of(tx, JOBS)?);
        let rows = tx.scan(&from, &to, 1)?;
        let Some(row) = rows.as_slice().first() else {
            return Ok(None);
        };
        tx.delete(row.key.clone()?)?;
        Ok(row.key.as_bytes().get(1).copied())
    }
}

/// The jobs that a client took.
type Taken = Vec<u8>;

/// A queue that is filled, and then emptied.
#[derive(Drop)]
struct Queue;

impl<R: Wait> Program<R> for Queue {
    type Out = Option<Taken>;

    type Answer = Option<[u8; JOBS as usize]>;

    fn begin<J: JournalId>(&mut self, client: &mut Client<'_, J, R>) {
        for job in 0..JOBS {
            // Twice: an insert of a job that is there does nothing.
            drop(client.update(&mut Add(job)));
            drop(client.update(&mut Add(job)));
        }
    }

    fn run<J: JournalId>(&self, client: &mut Client<'_, J, R>) -> Option<Taken> {
        let mut taken = Vec::new(client.alloc());
        for _ in 0..JOBS + 1 {
            match client.update(&mut Take).ok()?.value {
                Some(job) => taken.push(job).ok()?,
                None => return Some(taken),
            }
        }
        None
    }

    fn end<J: JournalId>(
        self,
        _: &mut Client<'_, J, R>,
        each: Vec<Option<Taken>>,
    ) -> Option<[u8; JOBS as usize]> {
        let mut times = [0u8; JOBS as usize];
        for taken in each {
            for job in taken? {
                if let Some(count) = times.get_mut(usize::from(job)) {
                    *count = count.wrapping_add(1);
                }
            }
        }
        Some(times)
    }
}

/// Opens a store of two regions, and has two clients empty a queue in it.
pub fn show<R>(rt: &R) -> anyhow::Result<()>
where
    R: Print + AllocGlobal + Threads + Wait + Sync,
{
    let times = with_store(rt, rt.alloc(), &[b"j\x08"], 2, Queue)?;
    let once = times.is_some_and(|times| times.iter().all(|count: &u8| *count == 1));
    println!(rt; "{JOBS} jobs, each taken once: {once}")?;
    Ok(())
}
