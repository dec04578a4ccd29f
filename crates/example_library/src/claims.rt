//! A queue whose jobs are claimed before they are done: each lies at the timestamp of its claim, or
//! at 0 where nobody has claimed it, so that what waits longest comes first. Two workers on two
//! threads forget some of what they claim; a claim that has grown old is taken over, and each job
//! is done once.
mod jobs;

use jobs::{JOBS, OLD, Order, Place, Tally, all};
use std::sync::Wait;
use std::thread::Threads;
use tx_kv::*;

// Claims the first job of the queue, and tells whether somebody else had claimed it before; none
// where others have claimed what is left. It refuses where nothing is.
fn claim<T: Tx>(tx: &mut T) -> Result<Option<(Place, bool)>, Failure<()>> {
    let (alloc, now) = (tx.alloc(), tx.start().get());
    let first = tx.page(all(alloc)?, 1)?.rows.into_iter().next();
    let row = first.ok_or(Failure::Own(()))?;
    let Place { at, job } = Place::of(alloc, &row.key)?.ok_or(Failure::Own(()))?;
    if at > 0 && now.saturating_sub(at) <= OLD {
        return Ok(None);
    }
    let claimed = Place { at: now, job };
    tx.delete(row.key)?;
    tx.put(claimed.key(alloc)?, Value::new(alloc, b"")?)?;
    Ok(Some((claimed, at > 0)))
}

impl Work for Order {
    type Out = Option<(Place, bool)>;

    /// Nothing is left; or the claim was taken over.
    type Err = ();

    fn apply<T: Tx>(&mut self, tx: &mut T) -> Result<Self::Out, Failure<()>> {
        let alloc = tx.alloc();
        match *self {
            Order::Claim => return claim(tx),
            Order::Finish(claimed) => {
                let key = claimed.key(alloc)?;
                tx.get(&key)?.ok_or(Failure::Own(()))?;
                tx.delete(key)?;
            }
            Order::Fill => {
                for job in 0..JOBS {
                    tx.put(Place { at: 0, job }.key(alloc)?, Value::new(alloc, b"")?)?;
                }
            }
        }
        Ok(None)
    }
}

/// A queue that is filled, and then emptied.
#[derive(Drop)]
struct Queue;

impl<R: Wait> Program<R> for Queue {
    type Out = Tally;

    type Answer = Tally;

    fn begin<J: JournalId>(&mut self, client: &mut Client<'_, J, R>) {
        drop(client.update(&mut Order::Fill));
    }

    fn run<J: JournalId>(&self, client: &mut Client<'_, J, R>) -> Tally {
        let mut counts = Tally(0, 0, 0);
        for _ in 0..100_000u32 {
            let (claimed, over) = match client.update(&mut Order::Claim).map(|told| told.value) {
                Ok(Some(claim)) => claim,
                Ok(None) => continue,
                Err(_) => break,
            };
            // Each third job is forgotten by whoever claims it first.
            let kept = (over || claimed.job % 3 != 0)
                && client.update(&mut Order::Finish(claimed)).is_ok();
            counts = counts.and(Tally(u64::from(kept), u64::from(over), u64::from(!kept)));
        }
        counts
    }

    fn end<J: JournalId>(self, _: &mut Client<'_, J, R>, each: Vec<Tally>) -> Tally {
        each.into_iter().fold(Tally(0, 0, 0), Tally::and)
    }
}

/// Opens a store of one region, and has two workers empty a queue in it.
pub fn show<R: Print + AllocGlobal + Threads + Wait + Sync>(rt: &R) -> anyhow::Result<()> {
    let Tally(done, over, lost) = with_store(rt, rt.alloc(), &[], 2, Queue)?;
    let again = lost >= JOBS / 3 && over == lost;
    Ok(println!(rt; "{done} jobs done, each claim that was lost taken over: {again}")?)
}
