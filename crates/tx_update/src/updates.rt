//! A transaction from its begin to its end, in one call.
ghost use Rattle.std.specs.Prelude.{ℕ, ◌≡◌, ◌≤◌, false, IfOk, IfErr};
ghost use Rattle.tx_journal.specs.Senders.{IsSender};
ghost use Rattle.tx_update.specs.Endings.{EndsOver, IsLastTry, IsUnended};
ghost use Rattle.tx_update.specs.Failures.{EndsAt};

use crate::attempt::try_once;
use crate::ended::{Ended, Seats, Unended};
use crate::failure::Failure;
use crate::stops::Stop;
use crate::tx::Tx;
use std::alloc::Global;
use std::thread::yield_now;
use tx_client::Terms;
use tx_journal::{JournalId, Reply, Request, Sender};

/// What a transaction is to do.
///
/// ```
/// impl Work for Hello {
///     type Out = ();
///     type Err = ();
///
///     fn apply<T: Tx>(&mut self, tx: &mut T) -> Result<(), Failure<()>> {
///         let key = Key::new(tx.alloc(), b"hello")?;
///         let value = Value::new(tx.alloc(), b"world")?;
///         Ok(tx.insert(key, value)?)
///     }
/// }
/// ```
pub trait Work {
    ghost use Rattle.std.specs.Prelude.{◌≡◌, ℕ, false, Result};
    ghost use Rattle.tx_transaction.specs.Buffers.{Entries};
    ghost use Rattle.tx_update.specs.declared.failure.Failure.{Failure};
    ghost use Rattle.tx_update.specs.declared.stops.Stop.{Stop};

    /// What it answers where it goes well.
    type Out: Drop;

    /// Its own reasons to refuse.
    type Err: Drop;

    /// How its value before, what was entered before, what it answers, what is entered after, and
    /// its value after belong together. It promises nothing where it does not say.
    ghost does: { Self → Entries → Result Self.Out (Failure Self.Err) → Entries → Self → Type 0 } = { λ before entered
        answer after after_it. Unit {0} };

    /// Where it is not to be tried once more: by its value, how many tries came to nothing, and
    /// what stopped the last. It may be anywhere where it does not say.
    ghost stops_at: { Self → ℕ → Stop → Type 0 } = { λ work tries stop. Unit {0} };

    /// Reads, and enters what is to be written. It is called anew for each try, with a transaction
    /// in which nothing is entered yet. What it leaves entered is written, or nothing is: nothing
    /// after an `Err`, and nothing where nothing is entered. `Failure::Own` is for a reason of its
    /// own.
    fn apply<T: Tx>(&mut self, tx: &mut T) -> Result<Self::Out, Failure<Self::Err>>
        ensures { does self.old (T.buffer tx.old) result (T.buffer tx.new) self.new };

    /// Whether it is to be tried once more, after so many tries that came to nothing, of which this
    /// stopped the last: `false` ends the update as the last of them ended. It may wait before it
    /// answers. It is asked between two tries, and not where no other may be made.
    fn may_go_on(&self, tries: u32, last: &Stop) -> bool
        ensures { result ≡ false → stops_at self.now tries last.now }
    {
        let _ = tries;
        let _ = last;
        true
    }
}

/// Who is told of each try that came to nothing and is made again.
pub trait Watch {
    /// This stopped a try, and another is made.
    fn stopped(&self, stop: &Stop);
}

/// Nobody is told.
#[derive(Drop)]
struct Nobody;

impl Watch for Nobody {
    fn stopped(&self, stop: &Stop) {
        let _ = stop;
    }
}

// Tells of a try that came to nothing.
fn tell<E, T: Watch>(watch: &T, last: &Option<Failure<E>>) {
    if let Some(Failure::Stopped(stop)) = last {
        watch.stopped(stop);
    }
}

/// How many times at most a thread lets others run between two tries: 2 to the power of this.
const REST: u32 = 12;

// Lets other threads run between two tries: twice as often after each try that came to nothing, up
// to a bound.
fn rest(tries: u32) {
    for _ in 0..1u32 << tries.min(REST) {
        yield_now();
    }
}

// Whether a work is to be tried once more, after so many tries that came to nothing, of which this
// stopped the last.
fn says_on<W: Work>(work: &W, tries: u32, last: &Option<Failure<W::Err>>) -> bool
    ensures { result ≡ false → EndsAt W.stops_at work.now tries last.now }
{
    match last {
        Some(Failure::Stopped(stop)) => work.may_go_on(tries, stop),
        _ => false,
    }
}

/// Does a work in a transaction: begins it, has the work read and enter what it writes, declares
/// that under these terms and commits it, in either mode. A lock in the way is resolved, as at the
/// last timestamp that was drawn: it is rolled back where it is past its time. Where the
/// transaction is for certain without effect, and one that begins later may go further
/// (`Failure::may_pass`), the work is done anew in another, up to `again` times, as long as it says
/// that it may go on; between two tries the thread lets others run, twice as often each time, 4,096
/// times at most. Each try draws one tick for its start; where something is entered, one more
/// where that is declared, and in two phases one for each commit timestamp that it tries. No clause
/// counts these ticks.
///
/// What it answers of the transaction that ran last is what `finish` answered, and means as much: a
/// commit or an abort is decided. A commit lies above each commit that the seat knew to be decided
/// before the call. `Err` where there is no outcome. The terms' bounds are those of `declare`: at
/// most 1,024 keys, of an async transaction 256; it stops as `Refused` beyond.
pub fn update<J: JournalId, S: Sender<Request<J>, Reply<J>>, W: Work>(
    alloc: Global,
    seats: Seats<J>,
    terms: Terms,
    again: u32,
    work: &mut W,
    sender: &mut S,
) -> Result<Ended<J, W::Out, W::Err>, Unended<J, W::Err>>
    requires way { IsSender J.bounds S.fits S.sends S.keys_between }
    ensures ended { IfOk result (λ e. (e.retries ≤ again)
        × EndsOver W.does J.bounds terms seats work.old e.retries e work.new) }
    ensures last { IfOk result (λ e. IsLastTry W.stops_at again e.retries e work.new) }
    ensures unended { IfErr result
        (λ u. (n : ℕ) × (n ≤ again) × IsUnended W.does J.bounds terms seats work.old n u work.new) }
{
    update_watched(alloc, seats, terms, again, work, &Nobody, sender)
}

/// The same, of which one is told who counts the tries that came to nothing.
pub fn update_watched<J: JournalId, S: Sender<Request<J>, Reply<J>>, W: Work, T: Watch>(
    alloc: Global,
    mut seats: Seats<J>,
    terms: Terms,
    again: u32,
    work: &mut W,
    watch: &T,
    sender: &mut S,
) -> Result<Ended<J, W::Out, W::Err>, Unended<J, W::Err>>
    requires way { IsSender J.bounds S.fits S.sends S.keys_between }
    ensures ended { IfOk result (λ e. (e.retries ≤ again)
        × EndsOver W.does J.bounds terms seats work.old e.retries e work.new) }
    ensures last { IfOk result (λ e. IsLastTry W.stops_at again e.retries e work.new) }
    ensures unended { IfErr result
        (λ u. (n : ℕ) × (n ≤ again) × IsUnended W.does J.bounds terms seats work.old n u work.new) }
{
    for tries in 0..again {
        match try_once(alloc, seats, &terms, work, tries, sender) {
            Err(unended) => return Err(unended),
            Ok(ended) => {
                if !ended.may_pass() {
                    return Ok(ended);
                }
                if !says_on(work, tries + 1, &ended.stop) {
                    return Ok(ended);
                }
                tell(watch, &ended.stop);
                seats = ended.into_seats();
                rest(tries);
            }
        }
    }
    try_once(alloc, seats, &terms, work, again, sender)
}
