//! What the sessions of a run send, over any way to the regions: each sends just the walk of its
//! call. What a transfer sends keeps what its session writes; a page of rows is what the machine
//! sees.
ghost use Rattle.std.specs.Prelude.{◌≡◌, ◌≢◌, true, false, IfErr, IfOk, Ok};
ghost use Rattle.tx_types.specs.declared.fault.Fault.TheVariants as fault;
ghost use Rattle.tx_types.specs.Keys.{AreRising};
ghost use Rattle.tx_core.specs.Histories.{Begins};
ghost use Rattle.tx_transaction.specs.declared.state.Phase.TheVariants as phase;
ghost use Rattle.tx_transaction.specs.Sessions.{is_declared, can_commit, can_abort, due_prewrite, due_commit, due_abort};
ghost use Rattle.tx_journal.specs.Senders.{IsSender};
ghost use Rattle.tx_client.specs.Calls.{KeepsSet};
ghost use Rattle.tx_client.specs.Walks.{Sends, get_walk, due_walk, scan_walk};
ghost use Rattle.tx_reply.specs.declared.reply.ScriptReply.TheVariants as reply;
ghost use Rattle.tx_steps.specs.Steps.{called};
ghost use Rattle.tx_ops.specs.Calls.{call_walk};
ghost use Rattle.tx_transfer.specs.PlainReplies.{says_outcome};
ghost use Rattle.tx_transfer.specs.Seeds.{KeepsPut};
ghost use Rattle.tx_transfer.specs.Sends.{KeepsSeats, RepliesOver, SendsOver};
ghost use Rattle.tx_transfer.specs.Steps.{DrawsOr, SendsDue};
ghost use Rattle.tx_transfer.specs.Totals.{IsPageOf, top};

use std::alloc::Global;
use tx_client::{Miss, Session};
use tx_core::Answer;
use tx_journal::{JournalId, Reply, Request, Sender};
use tx_reply::ScriptReply;
use tx_steps::Call;
use tx_types::limits::MAX_SCAN_ROWS;
use tx_types::{Cause, Fault, Key};

/// Sends what a line sends. Over a way that loses nothing no line is told that a reply was lost.
pub(crate) fn call<J: JournalId, S: Sender<Request<J>, Reply<J>>>(
    alloc: Global,
    session: &mut Session<J>,
    call: &Call<&str>,
    sender: &mut S,
) -> Result<ScriptReply, Cause>
    requires way { IsSender J.bounds S.fits S.sends S.keys_between }
    requires replies { RepliesOver S.sends }
    ensures sends { SendsOver J.bounds session.old.seat (call_walk J.bounds session.old.state (called call.now))
        (session.new.state, result) session.new.seat }
    ensures answered { result ≢ Ok reply.Lost }
    ensures plain { IfOk result (λ said. says_outcome said ≡ false) }
    ensures keeps { KeepsSeats S.sends sender.old sender.new }
{
    tx_ops::send(alloc, session, call, sender)
}

/// Reads a key.
pub(crate) fn get<J: JournalId, S: Sender<Request<J>, Reply<J>>>(
    session: &mut Session<J>,
    key: &Key,
    sender: &mut S,
) -> Result<Answer, Miss>
    requires way { IsSender J.bounds S.fits S.sends S.keys_between }
    requires replies { RepliesOver S.sends }
    ensures sends { Sends S.sends J.bounds session.old.seat sender.old (get_walk session.old.state key.now)
        (session.new.state, result) sender.new session.new.seat }
    ensures over { SendsOver J.bounds session.old.seat (get_walk session.old.state key.now)
        (session.new.state, result) session.new.seat }
    ensures set { KeepsSet session.old.state session.new.state }
{
    session.get(key, sender)
}

/// Sends the prewrite that is due.
pub(crate) fn prewrite<J: JournalId, S: Sender<Request<J>, Reply<J>>>(
    alloc: Global,
    session: &mut Session<J>,
    sender: &mut S,
) -> Result<Option<Answer>, Miss>
    requires way { IsSender J.bounds S.fits S.sends S.keys_between }
    requires replies { RepliesOver S.sends }
    requires can { is_declared session.old.state ≡ true }
    ensures sends { Sends S.sends J.bounds session.old.seat sender.old
        (due_walk session.old.state phase.Prewrite (due_prewrite session.old.state)) (session.new.state, result)
        sender.new session.new.seat }
    ensures over { SendsDue J.bounds phase.Prewrite session.old result session.new }
    ensures set { KeepsSet session.old.state session.new.state }
    ensures put { KeepsPut session.old.state session.new.state }
{
    session.prewrite_next(alloc, sender)
}

/// Draws a timestamp for a commit, where one may be drawn.
pub(crate) fn draw<J: JournalId>(session: &mut Session<J>) -> Result<(), Fault>
    ensures draws { DrawsOr J.bounds session.old result session.new }
    ensures set { KeepsSet session.old.state session.new.state }
    ensures put { KeepsPut session.old.state session.new.state }
    ensures err { IfErr result (λ e. e ≡ fault.OracleSpent) }
{
    if !session.can_draw() {
        return Ok(());
    }
    drop(session.draw_commit()?);
    Ok(())
}

/// Sends the commit that is due.
pub(crate) fn commit<J: JournalId, S: Sender<Request<J>, Reply<J>>>(
    session: &mut Session<J>,
    sender: &mut S,
) -> Result<Option<Answer>, Miss>
    requires way { IsSender J.bounds S.fits S.sends S.keys_between }
    requires replies { RepliesOver S.sends }
    requires can { can_commit session.old.state ≡ true }
    ensures sends { Sends S.sends J.bounds session.old.seat sender.old
        (due_walk session.old.state phase.Commit (due_commit session.old.state)) (session.new.state, result)
        sender.new session.new.seat }
    ensures over { SendsDue J.bounds phase.Commit session.old result session.new }
    ensures set { KeepsSet session.old.state session.new.state }
    ensures put { KeepsPut session.old.state session.new.state }
{
    session.commit_next(sender)
}

/// Sends what an abort has due.
pub(crate) fn abort<J: JournalId, S: Sender<Request<J>, Reply<J>>>(
    session: &mut Session<J>,
    sender: &mut S,
) -> Result<Option<Answer>, Miss>
    requires way { IsSender J.bounds S.fits S.sends S.keys_between }
    requires replies { RepliesOver S.sends }
    requires can { can_abort session.old.state ≡ true }
    ensures sends { Sends S.sends J.bounds session.old.seat sender.old
        (due_walk session.old.state phase.Abort (due_abort session.old.state)) (session.new.state, result)
        sender.new session.new.seat }
    ensures over { SendsDue J.bounds phase.Abort session.old result session.new }
    ensures set { KeepsSet session.old.state session.new.state }
{
    session.abort_next(sender)
}

/// Reads a page of rows, from a key up to but not including another.
pub(crate) fn page<J: JournalId, S: Sender<Request<J>, Reply<J>>>(
    alloc: Global,
    session: &mut Session<J>,
    from: &Key,
    to: &Key,
    sender: &mut S,
) -> Result<Answer, Miss>
    requires way { IsSender J.bounds S.fits S.sends S.keys_between }
    requires rising { AreRising J.bounds }
    requires top { to.now ≡ top }
    ensures sends { Sends S.sends J.bounds session.old.seat sender.old
        (scan_walk session.old.state J.bounds from.now to.now MAX_SCAN_ROWS) (session.new.state, result)
        sender.new session.new.seat }
    ensures start { session.new.state.start ≡ session.old.state.start }
    ensures knows { Begins session.old.seat.events session.new.seat.events }
    ensures page { IsPageOf J.bounds session.new.seat.events session.old.state.start from.now result }
{
    let answered = session.scan(alloc, from, to, MAX_SCAN_ROWS, sender);
    // For proofs: what its seat has seen is a run.
    session.show();
    answered
}
