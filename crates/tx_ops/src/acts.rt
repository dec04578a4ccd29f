//! What a session does by itself: it edits its buffer, declares it, and draws its commit timestamp.
ghost use Rattle.tx_transaction.specs.Sessions.{is_declared, can_draw};
ghost use Rattle.tx_steps.specs.Steps.{acted};
ghost use Rattle.tx_ops.specs.Acts.{Declares, DrawsIf, Does};

use crate::edits::{delete, insert, lock, put};
use std::alloc::Global;
use tx_client::{Session, Terms};
use tx_journal::JournalId;
use tx_reply::ScriptReply;
use tx_steps::Op;
use tx_types::{Cause, Fault, Ts};

// Fixes the buffer under these terms. `Order` after it declared.
fn declare<J: JournalId>(session: &mut Session<J>, terms: Terms) -> Result<ScriptReply, Cause>
    ensures { Declares J.bounds (is_declared session.old.state) session.old terms result session.new }
{
    if session.is_declared() {
        return Err(Cause::Order);
    }
    match session.declare(terms) {
        Ok(()) => Ok(ScriptReply::Fine),
        Err(Fault::TooManyKeys) => Ok(ScriptReply::TooManyKeys),
        Err(_) => Ok(ScriptReply::OracleSpent),
    }
}

// Draws the commit timestamp, where its state allows it.
fn draw<J: JournalId>(session: &mut Session<J>) -> Result<ScriptReply, Cause>
    ensures { DrawsIf J.bounds (can_draw session.old.state) session.old result session.new }
{
    if !session.can_draw() {
        return Err(Cause::Order);
    }
    match session.draw_commit() {
        Ok(commit) => Ok(ScriptReply::Drawn(commit)),
        Err(_) => Ok(ScriptReply::OracleSpent),
    }
}

/// What a session does by itself: `Order` just where its state does not allow it, and of a line
/// that is to end it or to resolve a lock. Only an edit takes memory.
#[inline(never)]
pub fn act<J: JournalId>(
    alloc: Global,
    session: &mut Session<J>,
    op: &Op<&str>,
) -> Result<ScriptReply, Cause>
    ensures { Does J.bounds (acted op.now) session.old result session.new }
{
    match *op {
        Op::Put(key, value) => put(alloc, session, key, value),
        Op::Insert(key, value) => insert(alloc, session, key, value),
        Op::Delete(key) => delete(alloc, session, key),
        Op::Lock(key) => lock(alloc, session, key),
        Op::Declare(mode, ttl, most) => {
            let max_commit = most.map(Ts::new);
            declare(
                session,
                Terms {
                    mode,
                    ttl,
                    max_commit,
                },
            )
        }
        Op::Draw => draw(session),
        Op::Finish | Op::Stop | Op::Resolve(_) => Err(Cause::Order),
    }
}
