//! What is known of a live session, by the replies to its steps.
use tx_core::Answer;
use tx_reply::ScriptReply;
use tx_steps::{Call, Op};
use tx_types::Mode;

/// How far a session has come.
#[derive(Clone, Copy, Debug, Drop, PartialEq, Eq)]
pub(crate) enum Stage {
    /// It edits its buffer.
    Open,
    /// It has declared, and its keys are to be locked.
    Declared,
    /// All are locked in two phases: it is to draw.
    Locked,
    /// It has drawn its commit timestamp.
    Drawn,
    /// It was refused, and is to roll back.
    Refused,
    /// Its outcome is known.
    Decided,
}

/// A live session.
#[derive(Clone, Copy, Debug, Drop, PartialEq, Eq)]
pub(crate) struct LiveSession {
    /// The number in its name.
    pub(crate) number: u64,
    /// The timestamp at which its transaction began.
    pub(crate) start: u64,
    pub(crate) stage: Stage,
    /// Whether its buffer has anything.
    pub(crate) has_edits: bool,
    pub(crate) is_async: bool,
    /// Whether it met a lock that is not resolved yet.
    pub(crate) has_met: bool,
}

// Where a prewrite leads.
fn after_prewrite(is_async: bool, reply: &ScriptReply) -> Option<Stage> {
    match reply {
        ScriptReply::Done if is_async => Some(Stage::Decided),
        ScriptReply::Done => Some(Stage::Locked),
        ScriptReply::Answered(Answer::KeyIsLocked(_) | Answer::Prewritten(_)) => None,
        ScriptReply::Answered(_) => Some(Stage::Refused),
        _ => None,
    }
}

// Where a commit leads.
fn after_commit(reply: &ScriptReply) -> Option<Stage> {
    match reply {
        ScriptReply::Done | ScriptReply::Answered(Answer::Committed(_)) => Some(Stage::Decided),
        ScriptReply::Answered(Answer::CommitTsExpired { .. }) => Some(Stage::Locked),
        ScriptReply::Answered(_) => Some(Stage::Refused),
        _ => None,
    }
}

// Where a rollback leads.
fn after_abort(reply: &ScriptReply) -> Option<Stage> {
    match reply {
        ScriptReply::Done | ScriptReply::Answered(_) => Some(Stage::Decided),
        _ => None,
    }
}

impl LiveSession {
    pub(crate) fn new(number: u64, start: u64) -> LiveSession {
        LiveSession {
            number,
            start,
            stage: Stage::Open,
            has_edits: false,
            is_async: false,
            has_met: false,
        }
    }

    /// Learns the reply to what it did by itself.
    pub(crate) fn did<S>(&mut self, op: &Op<S>, reply: &ScriptReply) {
        match (op, reply) {
            (Op::Put(..) | Op::Insert(..) | Op::Delete(_) | Op::Lock(_), ScriptReply::Fine) => {
                self.has_edits = true;
            }
            (Op::Declare(mode, _, _), ScriptReply::Fine) => {
                self.stage = Stage::Declared;
                self.is_async = *mode == Mode::Async;
            }
            (Op::Draw, _) => self.stage = Stage::Drawn,
            (Op::Resolve(_), _) => self.has_met = false,
            _ => {}
        }
    }

    /// Learns the reply to what it sent.
    pub(crate) fn sent<S>(&mut self, call: &Call<S>, reply: &ScriptReply) {
        if let ScriptReply::Answered(Answer::KeyIsLocked(_)) = reply {
            self.has_met = true;
        }
        let next = match call {
            Call::Prewrite => after_prewrite(self.is_async, reply),
            Call::Commit => after_commit(reply),
            Call::Abort => after_abort(reply),
            Call::Get(_) | Call::Scan(..) | Call::Heartbeat(_) => None,
        };
        if let Some(stage) = next {
            self.stage = stage;
        }
    }
}
