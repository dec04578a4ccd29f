//! The resolver: what became of the transaction of a lock that was met.
ghost use Rattle.std.specs.Prelude.{◌≡◌, max, true, IfOk, IfErr};
ghost use Rattle.tx_types.specs.declared.fault.Fault.TheVariants as fault;
ghost use Rattle.tx_machine.specs.Machine.{Done};
ghost use Rattle.tx_core.specs.Allowed.{Allowed};
ghost use Rattle.tx_core.specs.Decisions.{decided, HasTwoPhaseLock};
ghost use Rattle.tx_core.specs.Laws.{WasToldOf};
ghost use Rattle.tx_journal.specs.Senders.{IsSender};
ghost use Rattle.tx_client.specs.Statuses.{Ends};
ghost use Rattle.tx_client.specs.Walks.{Sends};
ghost use Rattle.tx_resolve.specs.Resolution.{check_of, other_of, settle_of, primary_walk, settle_walk, other_walk, others_walk, after_forced, forced_walk, after_others, expired_walk, after_primary, resolve_walk};
ghost use Rattle.tx_resolve.specs.Facts.{Knows, IsPrimarysLock, IsPrimary, IsOthers, IsOther};

use crate::findings::{For, Other, Others, Primary, other_by, primary_by, settled_by};
use tx_client::{Resolved, Status, WaitCause, ask};
use tx_core::{Body, CheckSecondaryLocks, CheckTxnStatus, ResolveLock};
use tx_journal::{JournalId, Reply, Request, Seat, Sender};
use tx_types::{Fate, Fault, Key, LockInfo, Ts};

// The check of a lock's primary.
fn check_of(met: &LockInfo, who: &For, forced: bool) -> Result<Body, Fault>
    ensures ok { IfOk result (λ body. body ≡ check_of met.now who.now forced) }
    ensures err { IfErr result (λ e. e ≡ fault.OutOfMemory) }
{
    Ok(Body::CheckTxnStatus(CheckTxnStatus {
        key: met.facts().primary.clone()?,
        start: met.facts().start,
        caller: who.caller(),
        current: who.time(),
        rollback_if_not_exist: who.is_over(met),
        force_sync_commit: forced,
    }))
}

// The check of another key of the transaction that started here.
fn other_of(start: Ts, key: &Key) -> Result<Body, Fault>
    ensures ok { IfOk result (λ body. body ≡ other_of start key.now) }
    ensures err { IfErr result (λ e. e ≡ fault.OutOfMemory) }
{
    let key = key.clone()?;
    Ok(Body::CheckSecondaryLocks(CheckSecondaryLocks { key, start }))
}

// The request that gives a lock the fate of its transaction.
fn settle_of(met: &LockInfo, fate: &Fate) -> Result<Body, Fault>
    ensures ok { IfOk result (λ body. body ≡ settle_of met.now fate.now) }
    ensures err { IfErr result (λ e. e ≡ fault.OutOfMemory) }
{
    Ok(Body::ResolveLock(ResolveLock {
        key: met.facts().key.clone()?,
        start: met.facts().start,
        fate: *fate,
    }))
}

// Asks the primary of a lock.
fn ask_primary<J: JournalId, S: Sender<Request<J>, Reply<J>>>(
    seat: &mut Seat<J>,
    met: &LockInfo,
    who: &For,
    forced: bool,
    sender: &mut S,
) -> Primary
    requires way { IsSender J.bounds S.fits S.sends S.keys_between }
    requires knows { Knows J.bounds seat.old.events met.now }
    requires two_phase { forced ≡ true → HasTwoPhaseLock seat.old.events met.now.start }
    ensures sends { Sends S.sends J.bounds seat.old sender.old (primary_walk met.now who.now forced) result sender.new
        seat.new }
    ensures knows { Knows J.bounds seat.new.events met.now }
    ensures found { IsPrimary seat.new.events met.now.start result }
{
    let Ok(body) = check_of(met, who, forced) else {
        return Primary::Rests(Status::Waiting(WaitCause::OutOfMemory));
    };
    primary_by(who, ask(seat, body, sender))
}

// Asks another key.
fn ask_other<J: JournalId, S: Sender<Request<J>, Reply<J>>>(
    seat: &mut Seat<J>,
    met: &LockInfo,
    key: &Key,
    sender: &mut S,
) -> Other
    requires way { IsSender J.bounds S.fits S.sends S.keys_between }
    requires knows { Knows J.bounds seat.old.events met.now }
    requires allowed { Allowed seat.old.events (other_of met.now.start key.now) }
    ensures sends { Sends S.sends J.bounds seat.old sender.old (other_walk met.now.start key.now) result sender.new
        seat.new }
    ensures knows { Knows J.bounds seat.new.events met.now }
    ensures found { IsOther seat.new.events met.now.start key.now result }
{
    let Ok(body) = other_of(met.facts().start, key) else {
        return Other::Ends(Others::Rests(WaitCause::OutOfMemory));
    };
    other_by(&ask(seat, body, sender))
}

// The greater of two timestamps.
fn greater(a: Ts, b: Ts) -> Ts
    ensures { result ≡ max a b }
{
    if a < b { b } else { a }
}

// Asks the other keys, which the primary's lock lists, up to the first that has no async lock.
fn ask_others<J: JournalId, S: Sender<Request<J>, Reply<J>>>(
    seat: &mut Seat<J>,
    met: &LockInfo,
    primary: &LockInfo,
    sender: &mut S,
) -> Others
    requires way { IsSender J.bounds S.fits S.sends S.keys_between }
    requires knows { Knows J.bounds seat.old.events met.now }
    requires primary { IsPrimarysLock seat.old.events met.now.start primary.now }
    ensures sends { Sends S.sends J.bounds seat.old sender.old
        (others_walk met.now.start primary.now.secondaries primary.now.min) result sender.new seat.new }
    ensures knows { Knows J.bounds seat.new.events met.now }
    ensures found { IsOthers seat.new.events met.now.start result }
{
    let mut most = primary.facts().min;
    for key in primary.facts().secondaries.as_slice() {
        match ask_other(seat, met, key, sender) {
            Other::Async(minimum) => most = greater(most, minimum),
            Other::Ends(found) => return found,
        }
    }
    Others::Decided(Fate::Committed(most))
}

// Gives the lock that was met the fate of its transaction.
fn settle<J: JournalId, S: Sender<Request<J>, Reply<J>>>(
    seat: &mut Seat<J>,
    met: &LockInfo,
    fate: &Fate,
    sender: &mut S,
) -> Status
    requires way { IsSender J.bounds S.fits S.sends S.keys_between }
    requires knows { Knows J.bounds seat.old.events met.now }
    requires decided { decided seat.old.events met.now.start ≡ Done fate.now }
    ensures sends { Sends S.sends J.bounds seat.old sender.old (settle_walk met.now fate.now) result sender.new
        seat.new }
    ensures ends { Ends seat.new.events met.now.start result }
{
    let Ok(body) = settle_of(met, fate) else {
        return Status::Waiting(WaitCause::OutOfMemory);
    };
    settled_by(fate, &ask(seat, body, sender))
}

// What follows the answer of a primary to a check that was forced.
fn after_forced<J: JournalId, S: Sender<Request<J>, Reply<J>>>(
    seat: &mut Seat<J>,
    met: &LockInfo,
    primary: &Primary,
    sender: &mut S,
) -> Status
    requires way { IsSender J.bounds S.fits S.sends S.keys_between }
    requires knows { Knows J.bounds seat.old.events met.now }
    requires found { IsPrimary seat.old.events met.now.start primary.now }
    ensures sends { Sends S.sends J.bounds seat.old sender.old (after_forced met.now primary.now) result sender.new
        seat.new }
    ensures ends { Ends seat.new.events met.now.start result }
{
    match primary {
        Primary::Rests(status) => *status,
        Primary::Decided(fate) => settle(seat, met, fate, sender),
        Primary::Expired(_) => Status::Waiting(WaitCause::Live),
    }
}

// Asks the primary of a transaction that has fallen back, as if it were two-phase.
fn force<J: JournalId, S: Sender<Request<J>, Reply<J>>>(
    seat: &mut Seat<J>,
    met: &LockInfo,
    who: &For,
    sender: &mut S,
) -> Status
    requires way { IsSender J.bounds S.fits S.sends S.keys_between }
    requires knows { Knows J.bounds seat.old.events met.now }
    requires two_phase { HasTwoPhaseLock seat.old.events met.now.start }
    ensures sends { Sends S.sends J.bounds seat.old sender.old (forced_walk met.now who.now) result sender.new
        seat.new }
    ensures ends { Ends seat.new.events met.now.start result }
{
    let primary = ask_primary(seat, met, who, true, sender);
    after_forced(seat, met, &primary, sender)
}

// What follows the answers of the other keys.
fn after_others<J: JournalId, S: Sender<Request<J>, Reply<J>>>(
    seat: &mut Seat<J>,
    met: &LockInfo,
    who: &For,
    others: &Others,
    sender: &mut S,
) -> Status
    requires way { IsSender J.bounds S.fits S.sends S.keys_between }
    requires knows { Knows J.bounds seat.old.events met.now }
    requires found { IsOthers seat.old.events met.now.start others.now }
    ensures sends { Sends S.sends J.bounds seat.old sender.old (after_others met.now who.now others.now) result
        sender.new seat.new }
    ensures ends { Ends seat.new.events met.now.start result }
{
    match others {
        Others::Rests(why) => Status::Waiting(*why),
        Others::Decided(fate) => settle(seat, met, fate, sender),
        Others::FellBack => force(seat, met, who, sender),
    }
}

// Asks the other keys of an async transaction whose time is over.
fn pursue<J: JournalId, S: Sender<Request<J>, Reply<J>>>(
    seat: &mut Seat<J>,
    met: &LockInfo,
    who: &For,
    primary: &LockInfo,
    sender: &mut S,
) -> Status
    requires way { IsSender J.bounds S.fits S.sends S.keys_between }
    requires knows { Knows J.bounds seat.old.events met.now }
    requires primary { IsPrimarysLock seat.old.events met.now.start primary.now }
    ensures sends { Sends S.sends J.bounds seat.old sender.old (expired_walk met.now who.now primary.now) result
        sender.new seat.new }
    ensures ends { Ends seat.new.events met.now.start result }
{
    let others = ask_others(seat, met, primary, sender);
    after_others(seat, met, who, &others, sender)
}

// What follows the answer of a primary.
fn after_primary<J: JournalId, S: Sender<Request<J>, Reply<J>>>(
    seat: &mut Seat<J>,
    met: &LockInfo,
    who: &For,
    primary: &Primary,
    sender: &mut S,
) -> Status
    requires way { IsSender J.bounds S.fits S.sends S.keys_between }
    requires knows { Knows J.bounds seat.old.events met.now }
    requires found { IsPrimary seat.old.events met.now.start primary.now }
    ensures sends { Sends S.sends J.bounds seat.old sender.old (after_primary met.now who.now primary.now) result
        sender.new seat.new }
    ensures ends { Ends seat.new.events met.now.start result }
{
    match primary {
        Primary::Rests(status) => *status,
        Primary::Decided(fate) => settle(seat, met, fate, sender),
        Primary::Expired(info) => pursue(seat, met, who, info, sender),
    }
}

/// Finds what became of the transaction of a lock.
pub(crate) fn resolve_for<J: JournalId, S: Sender<Request<J>, Reply<J>>>(
    seat: &mut Seat<J>,
    met: &LockInfo,
    who: &For,
    sender: &mut S,
) -> Status
    requires way { IsSender J.bounds S.fits S.sends S.keys_between }
    requires knows { Knows J.bounds seat.old.events met.now }
    ensures sends { Sends S.sends J.bounds seat.old sender.old (resolve_walk met.now who.now) result sender.new
        seat.new }
    ensures ends { Ends seat.new.events met.now.start result }
{
    let primary = ask_primary(seat, met, who, false, sender);
    after_primary(seat, met, who, &primary, sender)
}

/// Finds what became of the transaction of a lock that stopped a read at `reader`, at the time
/// `now`, and gives the lock its fate, where it is decided. The seat has seen an answer that told
/// of the lock. It asks the transaction's primary, which rolls a two-phase lock back whose time is
/// over, and pushes one that lives; of an async transaction whose time is over it asks the other
/// keys too. What was found is so in what the seat has then seen. Waiting says why: the lock lives,
/// nothing of the transaction stands on its primary, or a reply was lost or refused below the safe
/// point or for want of memory.
pub fn resolve<J: JournalId, S: Sender<Request<J>, Reply<J>>>(
    seat: &mut Seat<J>,
    met: &LockInfo,
    reader: Ts,
    now: Ts,
    sender: &mut S,
) -> Resolved<J>
    requires way { IsSender J.bounds S.fits S.sends S.keys_between }
    requires told { WasToldOf seat.old.events met.now }
    ensures start { result.start ≡ met.now.start }
    ensures sends { Sends S.sends J.bounds seat.old sender.old (resolve_walk met.now (For.Reader reader now))
        result.status sender.new seat.new }
    ensures told { result.events ≡ seat.new.events }
{
    // For proofs: what the seat has seen is a world run.
    let _ = seat.number();
    let status = resolve_for(seat, met, &For::Reader { at: reader, now }, sender);
    let told = seat.tell();
    Resolved::new(met.facts().start, status, told)
}
