//! Steps of a session, over whatever way.
ghost use Rattle.tx_journal.specs.Senders.{IsSender};
ghost use Rattle.tx_steps.specs.Steps.{asked};
ghost use Rattle.tx_alone.specs.Ways.{MakesBy};

use std::alloc::Global;
use tx_client::Session;
use tx_journal::{JournalId, Reply, Request, Sender};
use tx_ops::{act, send};
use tx_reply::ScriptReply;
use tx_steps::Step;
use tx_types::Cause;

/// What the two calls of tx_ops, by which `run` and `simulate` both make a step, make of it over
/// any way: over the network of one thread, over a store, over whatever is yet to come.
pub fn make<J: JournalId, S: Sender<Request<J>, Reply<J>>>(
    alloc: Global,
    session: &mut Session<J>,
    step: &Step<&str>,
    sender: &mut S,
) -> Result<ScriptReply, Cause>
    requires way { IsSender J.bounds S.fits S.sends S.keys_between }
    ensures { MakesBy S.sends J.bounds (asked step.now) session.old sender.old result session.new sender.new }
{
    match step {
        Step::Act(_, op) => act(alloc, session, op),
        Step::Send(_, call, _) => send(alloc, session, call, sender),
        Step::Begin(_) => Err(Cause::Name),
        _ => Err(Cause::Order),
    }
}
