//! What resolves locks and collects old versions: the seat for what no session does, whose requests
//! are all taken and answered.
ghost use Rattle.std.specs.Prelude.{◌≡◌, Some};
ghost use Rattle.tx_core.specs.Laws.{WasToldOf};
ghost use Rattle.tx_resolve.specs.Collection.{gc_walk};
ghost use Rattle.tx_resolve.specs.BlockedReads.{read_walk};
ghost use Rattle.tx_steps.specs.declared.delivery.Delivery.TheVariants as deliveries;
ghost use Rattle.tx_engine.specs.Slots.{Learnt, Resolves, Serves};
ghost use Rattle.tx_network.specs.Networks.{network_state, Runs};
ghost use Rattle.tx_engine.specs.Semantics.{collected_as as collected_so, refused_as as refused_so};

use tx_cells::Families;
use tx_client::{Resolved, Session, Status, WaitCause};
use tx_core::Answer;
use tx_journal::{JournalId, Lost, Request, Seat, Sender, Told};
use tx_network::Network;
use tx_reply::ScriptReply;
use tx_resolve::{Counts, gc, resolve};
use tx_types::{Cause, Fault, Key, LockInfo, Ts};

/// The network for requests of which none is lost: each is taken once, and its reply comes.
pub(crate) struct Direct<J: JournalId, F: Families> {
    pub(crate) network: Network<J, F>,
}

impl<J: JournalId, F: Families> Direct<J, F> {
    /// The network that it is of.
    pub(crate) fn into_network(self) -> Network<J, F>
        ensures { result ≡ self.network }
    {
        let Self { network } = self;
        network
    }
}

impl<J: JournalId, F: Families + Drop> Drop for Direct<J, F> {
    fn drop(self) {
        let Self { network: _ } = self;
    }
}

impl<J: JournalId, F: Families> Sender<Request<J>, tx_journal::Reply<J>> for Direct<J, F> {
    ghost use Rattle.std.specs.Prelude.{Some};
    ghost use Rattle.tx_journal.specs.Senders.{IsHeld};
    ghost use Rattle.tx_steps.specs.declared.delivery.Delivery.TheVariants as deliveries;
    ghost use Rattle.tx_network.specs.Networks.{Passes};

    ghost fits = { λ a q. IsHeld J.bounds q.body };

    ghost sends = { λ a q r b. Passes J.bounds (Some deliveries.Taken) a.network q r b.network };

    ghost keys_between = { λ a. J.bounds };

    fn send(&mut self, request: Request<J>) -> Result<tx_journal::Reply<J>, Lost> {
        Ok(self.network.take(request))
    }

    fn send_in(&mut self, place: &mut Option<tx_journal::Reply<J>>) {
        if let Some(reply) = place {
            self.network.take_in(reply);
        }
    }

    fn bounds(&self) -> &[Key] {
        self.network.bounds()
    }
}

// The seat for what no session does resolves a lock that was met, as was told, for reads at a
// timestamp.
fn find<J: JournalId, F: Families>(
    system_seat: &mut Seat<J>,
    met: &LockInfo,
    told: Told<J>,
    at: Ts,
    now: Ts,
    direct: &mut Direct<J, F>,
) -> Resolved<J>
    requires { WasToldOf told met.now }
    ensures start { result.start ≡ met.now.start }
    ensures ticks { system_seat.new.ticks ≡ system_seat.old.ticks }
    ensures serves { Serves system_seat.old system_seat.new direct.old.network direct.new.network
        (Runs J.bounds (Some deliveries.Taken) (network_state direct.old.network)
        (read_walk met.now at now) result.status (network_state direct.new.network)) }
{
    system_seat.learn(told);
    resolve(system_seat, met, at, now, direct)
}

// A session learns what was found. Where memory for that is refused it waits, and what was found
// will be found again.
fn learn<J: JournalId>(session: &mut Session<J>, found: Resolved<J>) -> ScriptReply
    ensures { Learnt J.bounds found result session.old session.new }
{
    let status = found.status();
    match session.learn(found) {
        Ok(()) => ScriptReply::Status(status),
        Err(_) => ScriptReply::Status(Status::Waiting(WaitCause::OutOfMemory)),
    }
}

/// The lock that a session met last is resolved for its reads, at a time, and the session learns
/// what was found. `Order` where it met none. Memory that is refused on the way is a status.
pub(crate) fn resolve_at<J: JournalId, F: Families>(
    system_seat: &mut Seat<J>,
    session: &mut Session<J>,
    direct: &mut Direct<J, F>,
    now: Ts,
) -> Result<ScriptReply, Cause>
    ensures { Resolves J.bounds now result session.old session.new system_seat.old system_seat.new direct.old.network
        direct.new.network }
{
    let told = session.tell();
    match session.met_lock() {
        None => Err(Cause::Order),
        Some(met) => {
            let found = find(system_seat, met, told, session.start(), now, direct);
            Ok(learn(session, found))
        }
    }
}

/// Old versions are collected at a safe point, in each region.
pub(crate) fn gc_at<J: JournalId, F: Families>(
    system_seat: &mut Seat<J>,
    direct: &mut Direct<J, F>,
    safe: Ts,
) -> Result<Counts, Fault>
    ensures ticks { system_seat.new.ticks ≡ system_seat.old.ticks }
    ensures serves { Serves system_seat.old system_seat.new direct.old.network direct.new.network
        (Runs J.bounds (Some deliveries.Taken) (network_state direct.old.network) (gc_walk J.bounds safe) result
        (network_state direct.new.network)) }
{
    gc(system_seat, safe, direct)
}

// The refusal of a safe point, or of memory.
fn refused_as(fault: &Fault) -> ScriptReply
    ensures { result ≡ refused_so fault.now }
{
    match fault {
        Fault::BelowSafePoint { safe } => ScriptReply::Answered(Answer::BelowSafePoint {
            safe: *safe,
        }),
        Fault::FutureTimestamp { last } => ScriptReply::Answered(Answer::FutureTimestamp {
            last: *last,
        }),
        _ => ScriptReply::OutOfMemory,
    }
}

/// What a collection gives: the sums, or the refusal that ended it.
pub(crate) fn collected_as(collected: Result<Counts, Fault>) -> ScriptReply
    ensures { result ≡ collected_so collected }
{
    match collected {
        Ok(counts) => ScriptReply::Collected {
            records: counts.records,
            values: counts.values,
        },
        Err(Fault::LocksRemain(met)) => ScriptReply::Answered(Answer::LocksRemain(met)),
        Err(other) => refused_as(&other),
    }
}
