//! The collector: what drops old versions. Whose session is gone, that is resolved first: here the
//! lock on `a`, in two phases, gets a rollback, which is dropped with the older put on `b`.
//!
//! ```text
//! gc(6) -> 2 records, 0 values    before                            after
//! a  lock                         put y by 5                        none
//! a  records                      2: put x by 1                     2: put x by 1
//! b  records                      4: put w by 3, 2: put v by 1      4: put w by 3
//! ```
ghost use Rattle.std.specs.Prelude.{◌≡◌, ◌≤◌, length, Contains, IfOk};
ghost use Rattle.tx_types.specs.declared.lock.LockInfo.{LockInfo as Info};
ghost use Rattle.tx_core.specs.Laws.{WasToldOf};
ghost use Rattle.tx_core.specs.Worlds.{IsWorldRun};
ghost use Rattle.tx_journal.specs.Senders.{IsSender, LosesNothing};
ghost use Rattle.tx_client.specs.Walks.{Sends};
ghost use Rattle.tx_resolve.specs.Collection.{added, raised_by, listed_by, dropped_by, collected_by, raise_walk, raises_walk, list_walk, locks_walk, clear_walk, clears_walk, collect_walk, collects_walk, gc_walk};
ghost use Rattle.tx_resolve.specs.Facts.{IsToRaise, IsToList, IsToDrop, IsToCollect};

use crate::findings::For;
use crate::resolver::resolve_for;
use tx_client::{Miss, ask};
use tx_core::{Answer, Body, Collect, Infos, LocksBelow, RaiseSafe, RegionNo};
use tx_journal::{JournalId, Reply, Request, Seat, Sender};
use tx_types::{Fault, LockInfo, Ts};

/// What a collection dropped, as far as 64 bits count it.
#[derive(Clone, Copy, Debug, PartialEq, Eq)]
pub struct Counts {
    /// Write records.
    pub records: u64,
    /// Values of the `default` family.
    pub values: u64,
}

impl Counts {
    // Nothing was dropped.
    const NONE: Counts = Counts {
        records: 0,
        values: 0,
    };

    // The sums.
    fn add(self, records: u64, values: u64) -> Counts
        ensures { result ≡ added self (record { records = records; values = values }) }
    {
        Counts {
            records: self.records.saturating_add(records),
            values: self.values.saturating_add(values),
        }
    }
}

// Whether a safe point was raised.
fn raised_by(response: &Result<Answer, Miss>) -> Result<(), Fault>
    requires { IsToRaise response.now }
    ensures { result ≡ raised_by response.now }
{
    match response {
        Ok(Answer::Raised) => Ok(()),
        Ok(Answer::BelowSafePoint { safe }) => Err(Fault::BelowSafePoint { safe: *safe }),
        Ok(Answer::FutureTimestamp { last }) => Err(Fault::FutureTimestamp { last: *last }),
        Err(Miss::Fault) => Err(Fault::OutOfMemory),
        _ => unreachable!(),
    }
}

// The locks that were listed.
fn listed_by(response: Result<Answer, Miss>) -> Result<Infos, Fault>
    requires { IsToList response }
    ensures { result ≡ listed_by response }
{
    match response {
        Ok(Answer::Locks(infos)) => Ok(infos),
        Err(Miss::Fault) => Err(Fault::OutOfMemory),
        _ => unreachable!(),
    }
}

// What was dropped, beside what was before.
fn dropped_by(counts: Counts, response: &Result<Answer, Miss>) -> Result<Counts, Fault>
    requires { IsToDrop response.now }
    ensures { result ≡ dropped_by counts response.now }
{
    match response {
        Ok(Answer::Collected { records, values }) => Ok(counts.add(*records, *values)),
        Ok(Answer::BelowSafePoint { safe }) => Err(Fault::BelowSafePoint { safe: *safe }),
        Err(Miss::Fault) => Err(Fault::OutOfMemory),
        _ => unreachable!(),
    }
}

// The lock that remains, or what was dropped.
fn collected_by(counts: Counts, response: Result<Answer, Miss>) -> Result<Counts, Fault>
    requires { IsToCollect response }
    ensures { result ≡ collected_by counts response }
{
    match response {
        Ok(Answer::LocksRemain(info)) => Err(Fault::LocksRemain(info)),
        other => dropped_by(counts, &other),
    }
}

// Raises the safe point of a region.
fn raise<J: JournalId, S: Sender<Request<J>, Reply<J>>>(
    seat: &mut Seat<J>,
    region: RegionNo,
    safe: Ts,
    sender: &mut S,
) -> Result<(), Fault>
    requires way { IsSender J.bounds S.fits S.sends S.keys_between }
    requires lossless { LosesNothing S.sends }
    requires run { IsWorldRun J.bounds seat.old.events }
    requires within { region ≤ length J.bounds }
    ensures sends { Sends S.sends J.bounds seat.old sender.old (raise_walk safe region) result sender.new seat.new }
    ensures run { IsWorldRun J.bounds seat.new.events }
{
    let response = ask(seat, Body::RaiseSafe(RaiseSafe { region, safe }), sender);
    raised_by(&response)
}

// Raises the safe point of each region.
fn raise_all<J: JournalId, S: Sender<Request<J>, Reply<J>>>(
    seat: &mut Seat<J>,
    safe: Ts,
    sender: &mut S,
) -> Result<(), Fault>
    requires way { IsSender J.bounds S.fits S.sends S.keys_between }
    requires lossless { LosesNothing S.sends }
    requires run { IsWorldRun J.bounds seat.old.events }
    ensures sends { Sends S.sends J.bounds seat.old sender.old (raises_walk J.bounds safe) result sender.new seat.new }
    ensures run { IsWorldRun J.bounds seat.new.events }
{
    for n in 0..sender.bounds().len() + 1 {
        raise(seat, RegionNo::new(n as u32), safe, sender)?;
    }
    Ok(())
}

// The locks of a region that started below the safe point.
fn list<J: JournalId, S: Sender<Request<J>, Reply<J>>>(
    seat: &mut Seat<J>,
    region: RegionNo,
    safe: Ts,
    sender: &mut S,
) -> Result<Infos, Fault>
    requires way { IsSender J.bounds S.fits S.sends S.keys_between }
    requires lossless { LosesNothing S.sends }
    requires run { IsWorldRun J.bounds seat.old.events }
    requires within { region ≤ length J.bounds }
    ensures sends { Sends S.sends J.bounds seat.old sender.old (list_walk safe region) result sender.new seat.new }
    ensures run { IsWorldRun J.bounds seat.new.events }
    ensures told { IfOk result (λ infos. (info : Info) → Contains infos info → WasToldOf seat.new.events info) }
{
    let response = ask(seat, Body::LocksBelow(LocksBelow { region, safe }), sender);
    listed_by(response)
}

// Resolves each of these locks.
fn resolve_each<J: JournalId, S: Sender<Request<J>, Reply<J>>>(
    seat: &mut Seat<J>,
    infos: &[LockInfo],
    sender: &mut S,
) -> Result<(), Fault>
    requires way { IsSender J.bounds S.fits S.sends S.keys_between }
    requires run { IsWorldRun J.bounds seat.old.events }
    requires told { (info : Info) → Contains infos.now info → WasToldOf seat.old.events info }
    ensures sends { Sends S.sends J.bounds seat.old sender.old (locks_walk infos.now) result sender.new seat.new }
    ensures run { IsWorldRun J.bounds seat.new.events }
{
    for info in infos {
        resolve_for(seat, info, &For::Collector, sender);
    }
    Ok(())
}

// Resolves the locks of a region that started below the safe point.
fn clear<J: JournalId, S: Sender<Request<J>, Reply<J>>>(
    seat: &mut Seat<J>,
    region: RegionNo,
    safe: Ts,
    sender: &mut S,
) -> Result<(), Fault>
    requires way { IsSender J.bounds S.fits S.sends S.keys_between }
    requires lossless { LosesNothing S.sends }
    requires run { IsWorldRun J.bounds seat.old.events }
    requires within { region ≤ length J.bounds }
    ensures sends { Sends S.sends J.bounds seat.old sender.old (clear_walk safe region) result sender.new seat.new }
    ensures run { IsWorldRun J.bounds seat.new.events }
{
    let infos = list(seat, region, safe, sender)?;
    resolve_each(seat, infos.as_slice(), sender)
}

// Resolves the locks of each region that started below the safe point.
fn clear_all<J: JournalId, S: Sender<Request<J>, Reply<J>>>(
    seat: &mut Seat<J>,
    safe: Ts,
    sender: &mut S,
) -> Result<(), Fault>
    requires way { IsSender J.bounds S.fits S.sends S.keys_between }
    requires lossless { LosesNothing S.sends }
    requires run { IsWorldRun J.bounds seat.old.events }
    ensures sends { Sends S.sends J.bounds seat.old sender.old (clears_walk J.bounds safe) result sender.new seat.new }
    ensures run { IsWorldRun J.bounds seat.new.events }
{
    for n in 0..sender.bounds().len() + 1 {
        clear(seat, RegionNo::new(n as u32), safe, sender)?;
    }
    Ok(())
}

// Collects in a region.
fn collect<J: JournalId, S: Sender<Request<J>, Reply<J>>>(
    seat: &mut Seat<J>,
    region: RegionNo,
    safe: Ts,
    counts: Counts,
    sender: &mut S,
) -> Result<Counts, Fault>
    requires way { IsSender J.bounds S.fits S.sends S.keys_between }
    requires lossless { LosesNothing S.sends }
    requires run { IsWorldRun J.bounds seat.old.events }
    requires within { region ≤ length J.bounds }
    ensures sends { Sends S.sends J.bounds seat.old sender.old (collect_walk safe region counts) result sender.new
        seat.new }
    ensures run { IsWorldRun J.bounds seat.new.events }
{
    let response = ask(seat, Body::Collect(Collect { region, safe }), sender);
    collected_by(counts, response)
}

// Collects in each region.
fn collect_all<J: JournalId, S: Sender<Request<J>, Reply<J>>>(
    seat: &mut Seat<J>,
    safe: Ts,
    sender: &mut S,
) -> Result<Counts, Fault>
    requires way { IsSender J.bounds S.fits S.sends S.keys_between }
    requires lossless { LosesNothing S.sends }
    requires run { IsWorldRun J.bounds seat.old.events }
    ensures { Sends S.sends J.bounds seat.old sender.old (collects_walk J.bounds safe) result sender.new seat.new }
{
    let mut counts = Counts::NONE;
    for n in 0..sender.bounds().len() + 1 {
        counts = collect(seat, RegionNo::new(n as u32), safe, counts, sender)?;
    }
    Ok(counts)
}

/// Collects at a safe point: raises it in each region, in order, then resolves in each region the
/// locks that started below it, each taken as expired and with no read to let pass, then collects
/// in each, and adds up what was dropped. The first refusal ends it: `BelowSafePoint` where a
/// region's safe point lies above, `FutureTimestamp` where the one that is asked for was not drawn
/// yet, `LocksRemain` where a lock is left that could not be resolved, and `OutOfMemory`. What was
/// done stays, and it may be asked again. The sender loses nothing. The rule is docs/PROTOCOL.md's,
/// "The resolver, and collection".
pub fn gc<J: JournalId, S: Sender<Request<J>, Reply<J>>>(
    seat: &mut Seat<J>,
    safe: Ts,
    sender: &mut S,
) -> Result<Counts, Fault>
    requires way { IsSender J.bounds S.fits S.sends S.keys_between }
    requires lossless { LosesNothing S.sends }
    ensures { Sends S.sends J.bounds seat.old sender.old (gc_walk J.bounds safe) result sender.new seat.new }
{
    // For proofs: what the seat has seen is a world run.
    let _ = seat.number();
    raise_all(seat, safe, sender)?;
    clear_all(seat, safe, sender)?;
    collect_all(seat, safe, sender)
}
