//! What the lines of a session do to it, but those that begin or end a transaction: what tx_ops
//! says, in its context, where a lock in its way may also be resolved.
ghost use Rattle.std.specs.Prelude.{◌≡◌, ◌≢◌, false, IfOk, Ok};
ghost use Rattle.tx_reply.specs.declared.reply.ScriptReply.TheVariants as reply;
ghost use Rattle.tx_steps.specs.Steps.{acted, called};
ghost use Rattle.tx_ops.specs.Calls.{call_walk};
ghost use Rattle.tx_transfer.specs.Acts.{found_of, status_said, ResolvesSo, Acts};
ghost use Rattle.tx_transfer.specs.PlainReplies.{says_outcome};
ghost use Rattle.tx_transfer.specs.Replies.{reply_of, reply_by, said_of};
ghost use Rattle.tx_transfer.specs.Sends.{SendsOver};

use crate::context::Context;
use crate::plain_reply::PlainReply;
use crate::requests;
use std::sync::Wait;
use tx_cells::Families;
use tx_client::{Session, Status, WaitCause};
use tx_journal::JournalId;
use tx_reply::ScriptReply;
use tx_steps::{Call, Op};
use tx_types::{Cause, Fault, Ts};

/// The reply of a refusal.
pub fn refused(fault: Fault) -> PlainReply
    ensures { result.reply ≡ reply_of fault }
{
    match fault {
        Fault::KeyLength => PlainReply::new(ScriptReply::KeyLength),
        Fault::ValueLength => PlainReply::new(ScriptReply::ValueLength),
        Fault::TooManyKeys => PlainReply::new(ScriptReply::TooManyKeys),
        Fault::AlreadyExists => PlainReply::new(ScriptReply::AlreadyExists),
        Fault::OracleSpent => PlainReply::new(ScriptReply::OracleSpent),
        _ => PlainReply::new(ScriptReply::OutOfMemory),
    }
}

/// The reply to what may only be refused.
pub fn reply_to(edited: Result<(), Fault>) -> PlainReply
    ensures { result.reply ≡ reply_by edited }
{
    match edited {
        Ok(()) => PlainReply::new(ScriptReply::Fine),
        Err(fault) => refused(fault),
    }
}

// The reply of a line, which says no outcome.
fn told(said: Result<ScriptReply, Cause>) -> Result<PlainReply, Cause>
    requires { IfOk said (λ reply. says_outcome reply ≡ false) }
    ensures { said_of result ≡ said }
{
    match said {
        Ok(reply) => Ok(PlainReply::new(reply)),
        Err(cause) => Err(cause),
    }
}

// What was found of a lock; where memory was refused on the way, it waits.
fn found(resolved: Result<Option<Status>, Fault>) -> Option<Status>
    ensures { result ≡ found_of resolved }
{
    match resolved {
        Ok(status) => status,
        Err(fault) => {
            drop(fault);
            Some(Status::Waiting(WaitCause::OutOfMemory))
        }
    }
}

// The reply to what was found of a lock, where one was met.
fn told_found(found: Option<Status>) -> Result<PlainReply, Cause>
    ensures { said_of result ≡ status_said found }
{
    match found {
        Some(status) => Ok(PlainReply::new(ScriptReply::Status(status))),
        None => Err(Cause::Order),
    }
}

fn resolve<J: JournalId, F: Families + Drop, R: Wait + Drop>(
    session: &mut Session<J>,
    context: &mut Context<J, F, R>,
    now: u64,
) -> Result<PlainReply, Cause>
    ensures { ResolvesSo J.bounds session.old context.old.resolver now (said_of result) session.new
        context.new.resolver }
{
    told_found(found(context.resolve(session, Some(Ts::new(now)))))
}

/// What a session does by itself: `Order` just where its state does not allow it, and where the
/// line is to end it.
pub fn act<J: JournalId, F: Families + Drop, R: Wait + Drop>(
    session: &mut Session<J>,
    context: &mut Context<J, F, R>,
    op: Op<&str>,
) -> Result<PlainReply, Cause>
    ensures { Acts J.bounds (acted op.entry) session.old context.old.resolver (said_of result) session.new
        context.new.resolver }
{
    match op {
        Op::Resolve(now) => resolve(session, context, now),
        _ => told(tx_ops::act(context.alloc, session, &op)),
    }
}

/// What a session sends: `Order` just where its state does not allow the call. Over a store no
/// reply is lost, so no line is told that one was.
pub fn send<J: JournalId, F: Families + Drop, R: Wait + Drop>(
    session: &mut Session<J>,
    context: &mut Context<J, F, R>,
    call: Call<&str>,
) -> Result<PlainReply, Cause>
    ensures sends { SendsOver J.bounds session.old.seat (call_walk J.bounds session.old.state (called call.entry))
        (session.new.state, said_of result) session.new.seat }
    ensures answered { said_of result ≢ Ok reply.Lost }
    ensures resolver { context.new.resolver ≡ context.old.resolver }
{
    context.show();
    told(requests::call(context.alloc, session, &call, context))
}
