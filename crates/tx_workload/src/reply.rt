//! What the lines of a run are answered, and the text of an answer.
ghost use Rattle.std.specs.Prelude.{◌≡◌, ◌++◌, OnOk};
ghost use Rattle.tx_workload.specs.Lines.{line_of};

use crate::key_pair::KeyPair;
use std::alloc::AllocError;
use tx_core::Outcome;
use tx_reply::put_reply;
use tx_text::put_fault;
use tx_transfer::PlainReply;
use tx_types::{Cause, Ts};

/// What a line is answered.
#[derive(Drop)]
pub enum LineAnswer {
    /// What says no outcome: a reply, or a fault of the script, which ends its session.
    Plain(Result<PlainReply, Cause>),
    /// The outcome of the transaction that started there; of a transfer, with the keys that
    /// it moves between.
    Ended(Ts, Outcome, Option<KeyPair>),
}

/// A line, by its number, and its answer.
#[derive(Drop)]
pub struct LineReply {
    pub number: u64,
    pub answer: LineAnswer,
}

/// Appends the line of an answer, with its newline.
pub(crate) fn put_line(out: &mut Vec<u8>, reply: &LineReply) -> Result<(), AllocError>
    ensures { OnOk result (out.new.items ≡ out.old.items ++ line_of reply.now) }
{
    match &reply.answer {
        LineAnswer::Plain(Ok(plain)) => put_reply(out, reply.number, plain.reply()),
        LineAnswer::Plain(Err(cause)) => put_fault(out, reply.number, *cause),
        LineAnswer::Ended(_, outcome, _) => {
            put_reply(out, reply.number, &tx_reply::ScriptReply::Ended(*outcome))
        }
    }
}
