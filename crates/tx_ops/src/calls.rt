//! What a session sends: each call makes the tests of its definition in their order, and then sends
//! its requests over the way that it is given.
ghost use Rattle.std.specs.Prelude.{◌≡◌, ◌&&◌, true, IfOk, Ok};
ghost use Rattle.tx_types.specs.Lengths.{is_key as key_test};
ghost use Rattle.tx_transaction.specs.declared.state.Phase.TheVariants as phase;
ghost use Rattle.tx_transaction.specs.Sessions.{is_declared, can_commit, can_abort, has_primary, due_prewrite, due_commit, due_abort};
ghost use Rattle.tx_journal.specs.Senders.{IsSender};
ghost use Rattle.tx_client.specs.Walks.{Sends, get_walk, scan_walk, due_walk, heartbeat_walk};
ghost use Rattle.tx_steps.specs.Steps.{called};
ghost use Rattle.tx_ops.specs.Calls.{missed_reply, read_reply, sent_reply, read_call, allowed_call, call_walk};

use std::alloc::Global;
use tx_client::{Miss, Session};
use tx_core::Answer;
use tx_journal::{JournalId, Reply, Request, Sender};
use tx_reply::ScriptReply;
use tx_steps::Call;
use tx_types::{Cause, Fault, Key};

// What is told where a request had no answer.
fn missed(miss: Miss) -> ScriptReply
    ensures { result ≡ missed_reply miss }
{
    match miss {
        Miss::Lost => ScriptReply::Lost,
        Miss::Fault => ScriptReply::OutOfMemory,
    }
}

/// What is told of a read.
pub fn reply_to(answered: Result<Answer, Miss>) -> ScriptReply
    ensures { result ≡ read_reply answered }
{
    match answered {
        Ok(answer) => ScriptReply::Answered(answer),
        Err(miss) => missed(miss),
    }
}

// What is told of a request that may have had nothing due.
fn sent(answered: Result<Option<Answer>, Miss>) -> ScriptReply
    ensures { result ≡ sent_reply answered }
{
    match answered {
        Ok(Some(answer)) => ScriptReply::Answered(answer),
        Ok(None) => ScriptReply::Done,
        Err(miss) => missed(miss),
    }
}

fn is_key(key: &str) -> bool
    ensures { result ≡ key_test key.now }
{
    tx_types::is_key(key.as_bytes())
}

// Reads a key.
fn get<J: JournalId, S: Sender<Request<J>, Reply<J>>>(
    alloc: Global,
    session: &mut Session<J>,
    key: &str,
    sender: &mut S,
) -> ScriptReply
    requires way { IsSender J.bounds S.fits S.sends S.keys_between }
    ensures { Sends S.sends J.bounds session.old.seat sender.old
        (read_call (key_test key.now) session.old.state (get_walk session.old.state key.now))
        (session.new.state, Ok result) sender.new session.new.seat }
{
    if !is_key(key) {
        return ScriptReply::KeyLength;
    }
    let Ok(key) = Key::new(alloc, key.as_bytes()) else {
        return ScriptReply::OutOfMemory;
    };
    reply_to(session.get(&key, sender))
}

fn are_keys(from: &str, to: &str) -> bool
    ensures { result ≡ (key_test from.now && key_test to.now) }
{
    is_key(from) && is_key(to)
}

// The keys of a range.
fn range(alloc: Global, from: &str, to: &str) -> Result<(Key, Key), Fault>
    requires fits { (key_test from.now && key_test to.now) ≡ true }
    ensures ok { IfOk result (λ keys. (keys.0 ≡ from.now) × (keys.1 ≡ to.now)) }
{
    let from = Key::new(alloc, from.as_bytes())?;
    let to = Key::new(alloc, to.as_bytes())?;
    Ok((from, to))
}

// Reads a range, of so many rows at most.
fn scan<J: JournalId, S: Sender<Request<J>, Reply<J>>>(
    alloc: Global,
    session: &mut Session<J>,
    from: &str,
    to: &str,
    limit: u32,
    sender: &mut S,
) -> ScriptReply
    requires way { IsSender J.bounds S.fits S.sends S.keys_between }
    ensures { Sends S.sends J.bounds session.old.seat sender.old
        (read_call (key_test from.now && key_test to.now) session.old.state
        (scan_walk session.old.state J.bounds from.now to.now limit))
        (session.new.state, Ok result) sender.new session.new.seat }
{
    if !are_keys(from, to) {
        return ScriptReply::KeyLength;
    }
    let Ok((from, to)) = range(alloc, from, to) else {
        return ScriptReply::OutOfMemory;
    };
    reply_to(session.scan(alloc, &from, &to, limit, sender))
}

// Sends the prewrite that is due. `Order` before it declared.
fn prewrite<J: JournalId, S: Sender<Request<J>, Reply<J>>>(
    alloc: Global,
    session: &mut Session<J>,
    sender: &mut S,
) -> Result<ScriptReply, Cause>
    requires way { IsSender J.bounds S.fits S.sends S.keys_between }
    ensures { Sends S.sends J.bounds session.old.seat sender.old
        (allowed_call (is_declared session.old.state) session.old.state
        (due_walk session.old.state phase.Prewrite (due_prewrite session.old.state)))
        (session.new.state, result) sender.new session.new.seat }
{
    if !session.is_declared() {
        return Err(Cause::Order);
    }
    Ok(sent(session.prewrite_next(alloc, sender)))
}

// Sends the commit that is due, where its state allows one.
fn commit<J: JournalId, S: Sender<Request<J>, Reply<J>>>(
    session: &mut Session<J>,
    sender: &mut S,
) -> Result<ScriptReply, Cause>
    requires way { IsSender J.bounds S.fits S.sends S.keys_between }
    ensures { Sends S.sends J.bounds session.old.seat sender.old
        (allowed_call (can_commit session.old.state) session.old.state
        (due_walk session.old.state phase.Commit (due_commit session.old.state)))
        (session.new.state, result) sender.new session.new.seat }
{
    if !session.can_commit() {
        return Err(Cause::Order);
    }
    Ok(sent(session.commit_next(sender)))
}

// Sends what is due of an abort, where its state allows one.
fn abort<J: JournalId, S: Sender<Request<J>, Reply<J>>>(
    session: &mut Session<J>,
    sender: &mut S,
) -> Result<ScriptReply, Cause>
    requires way { IsSender J.bounds S.fits S.sends S.keys_between }
    ensures { Sends S.sends J.bounds session.old.seat sender.old
        (allowed_call (can_abort session.old.state) session.old.state
        (due_walk session.old.state phase.Abort (due_abort session.old.state)))
        (session.new.state, result) sender.new session.new.seat }
{
    if !session.can_abort() {
        return Err(Cause::Order);
    }
    Ok(sent(session.abort_next(sender)))
}

// Asks that its primary's lock live so long, in ticks. `Order` where it has no primary.
fn heartbeat<J: JournalId, S: Sender<Request<J>, Reply<J>>>(
    session: &mut Session<J>,
    ttl: u32,
    sender: &mut S,
) -> Result<ScriptReply, Cause>
    requires way { IsSender J.bounds S.fits S.sends S.keys_between }
    ensures { Sends S.sends J.bounds session.old.seat sender.old
        (allowed_call (has_primary session.old.state) session.old.state (heartbeat_walk session.old.state ttl))
        (session.new.state, result) sender.new session.new.seat }
{
    if !session.has_primary() {
        return Err(Cause::Order);
    }
    Ok(sent(session.heartbeat(ttl, sender)))
}

/// What a session sends, over any way to the regions: just the requests of the call's walk, one
/// after another. `Order` just where its state does not allow the call, and then nothing is sent.
#[inline(never)]
pub fn send<J: JournalId, S: Sender<Request<J>, Reply<J>>>(
    alloc: Global,
    session: &mut Session<J>,
    call: &Call<&str>,
    sender: &mut S,
) -> Result<ScriptReply, Cause>
    requires way { IsSender J.bounds S.fits S.sends S.keys_between }
    ensures { Sends S.sends J.bounds session.old.seat sender.old
        (call_walk J.bounds session.old.state (called call.now))
        (session.new.state, result) sender.new session.new.seat }
{
    match *call {
        Call::Get(key) => Ok(get(alloc, session, key, sender)),
        Call::Scan(from, to, limit) => Ok(scan(alloc, session, from, to, limit, sender)),
        Call::Prewrite => prewrite(alloc, session, sender),
        Call::Commit => commit(session, sender),
        Call::Abort => abort(session, sender),
        Call::Heartbeat(ttl) => heartbeat(session, ttl, sender),
    }
}
