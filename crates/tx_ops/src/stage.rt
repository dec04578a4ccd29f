//! How far a session is, by which a step may not be its next one.
ghost use Rattle.std.specs.Prelude.{◌≡◌, ◌↔◌, option_map, true};
ghost use Rattle.tx_steps.specs.Steps.{asked, bytes_of};
ghost use Rattle.tx_transaction.specs.Sessions.{can_draw};
ghost use Rattle.tx_ops.specs.declared.stage.SessionStage.TheVariants as stages;
ghost use Rattle.tx_ops.specs.Stages.{ending_name, stage_of};

use tx_client::Phase;
use tx_steps::{Call, Op, Step};
use tx_transaction::Transaction;
use tx_types::Fate;

/// How far a session is.
#[derive(Clone, Copy, Debug, PartialEq, Eq)]
pub enum SessionStage {
    /// It has declared nothing.
    Open,
    /// It has declared an empty write set.
    Empty,
    /// A key that it declared has no accepted lock.
    Locking,
    /// Each key has one, none of them in two phases. An async transaction whose keys all have one
    /// is committed as its session learns of the last, so none is met so far and undecided.
    Promised,
    /// Each key has one, some of them in two phases: a commit timestamp may be drawn.
    Locked,
    /// Its commit timestamp is drawn.
    Drawn,
    /// It knows that it is committed.
    Committed,
    /// It knows that it is aborted.
    Aborted,
}

impl SessionStage {
    /// How far a transaction is, by what its session knows. It is `Locked` just where a commit
    /// timestamp may be drawn.
    pub fn of(transaction: &Transaction) -> SessionStage
        ensures stage { result ≡ stage_of transaction.now }
        ensures locked { (result ≡ stages.Locked) ↔ (can_draw transaction.now ≡ true) }
    {
        if !transaction.is_declared() {
            return SessionStage::Open;
        }
        if !transaction.has_keys() {
            return SessionStage::Empty;
        }
        match transaction.decision() {
            Some(Fate::Committed(_)) => SessionStage::Committed,
            Some(Fate::Aborted) => SessionStage::Aborted,
            None if transaction.can_commit() => SessionStage::Drawn,
            None if transaction.is_due(Phase::Prewrite) => SessionStage::Locking,
            None if transaction.can_draw() => SessionStage::Locked,
            None => SessionStage::Promised,
        }
    }

    /// What is so of such a session, as a sentence goes on that begins with its name.
    pub fn as_str(self) -> &'static str {
        match self {
            SessionStage::Open => "has declared no write set",
            SessionStage::Empty => "has declared an empty write set",
            SessionStage::Locking => "has a key that is not locked yet",
            SessionStage::Promised => "has no key that is locked in two phases",
            SessionStage::Locked => "has all its keys locked, and no commit timestamp yet",
            SessionStage::Drawn => "has drawn its commit timestamp already",
            SessionStage::Committed => "is committed",
            SessionStage::Aborted => "is aborted",
        }
    }
}

/// The session for which a step draws a commit timestamp, or which it commits or aborts.
pub fn ending_name<'a>(step: &Step<&'a str>) -> Option<&'a str>
    ensures { option_map bytes_of result ≡ ending_name (asked step.now) }
{
    match *step {
        Step::Act(name, Op::Draw) => Some(name),
        Step::Send(name, Call::Commit | Call::Abort, _) => Some(name),
        _ => None,
    }
}
