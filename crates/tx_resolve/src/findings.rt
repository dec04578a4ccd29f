//! What the answers to a resolver's requests come to.
ghost use Rattle.std.specs.Prelude.{◌≡◌};
ghost use Rattle.tx_resolve.specs.Resolution.{caller_of, time_of, is_over, lets_pass, waiting_by, rests_by, standing_by, unlocked_by, primary_by, other_by, status_of, settled_by};

use tx_client::{Miss, Status, WaitCause};
use tx_core::Answer;
use tx_types::{Fate, LockInfo, Mode, Ts};

/// For whom a lock is resolved.
#[derive(Clone, Copy, Debug, PartialEq, Eq)]
pub(crate) enum For {
    /// A read at a timestamp that the lock stopped, at a time that is handed in.
    Reader { at: Ts, now: Ts },
    /// The collector, which reads nothing and to which each lock's time is over.
    Collector,
}

impl For {
    /// The timestamp of the read that was stopped.
    pub(crate) fn caller(&self) -> Ts
        ensures { result ≡ caller_of self.now }
    {
        match self {
            For::Reader { at, now: _ } => *at,
            For::Collector => Ts::ZERO,
        }
    }

    /// The time against which locks are held.
    pub(crate) fn time(&self) -> Ts
        ensures { result ≡ time_of self.now }
    {
        match self {
            For::Reader { at: _, now } => *now,
            For::Collector => Ts::new(u64::MAX),
        }
    }

    /// Whether a lock's time to live is over.
    pub(crate) fn is_over(&self, info: &LockInfo) -> bool
        ensures { result ≡ is_over self.now info.now }
    {
        match self {
            For::Reader { at: _, now } => {
                now.get().saturating_sub(info.facts().start.get()) > u64::from(info.facts().ttl)
            }
            For::Collector => true,
        }
    }

    // Whether a lock with this minimum lets the read pass.
    fn lets_pass(&self, minimum: Ts) -> bool
        ensures { result ≡ lets_pass self.now minimum }
    {
        match self {
            For::Reader { at, now: _ } => *at < minimum,
            For::Collector => false,
        }
    }
}

/// What the answer of a primary comes to.
#[derive(Debug, Drop)]
pub(crate) enum Primary {
    /// Nothing more is to be asked.
    Rests(Status),
    /// Its transaction is decided.
    Decided(Fate),
    /// Its async lock stands, and its time is over.
    Expired(LockInfo),
}

/// What the answers of the other keys come to.
#[derive(Clone, Copy, Debug, PartialEq, Eq)]
pub(crate) enum Others {
    /// Nothing more is to be asked.
    Rests(WaitCause),
    /// Their transaction is decided.
    Decided(Fate),
    /// One has a two-phase lock.
    FellBack,
}

/// What the answer of one of them comes to.
#[derive(Clone, Copy, Debug, PartialEq, Eq)]
pub(crate) enum Other {
    /// It has an async lock with this minimum.
    Async(Ts),
    /// It tells what they all come to.
    Ends(Others),
}

// Why to wait.
fn waiting_by(response: &Result<Answer, Miss>) -> WaitCause
    ensures { result ≡ waiting_by response.now }
{
    match response {
        Err(Miss::Lost) => WaitCause::Reply,
        Err(Miss::Fault) => WaitCause::OutOfMemory,
        Ok(Answer::BelowSafePoint { .. }) => WaitCause::BelowSafePoint,
        Ok(Answer::TxnNotFound) => WaitCause::NotFound,
        Ok(_) => WaitCause::Live,
    }
}

// What the lock of a primary comes to by itself.
fn rests_by(who: &For, info: &LockInfo) -> Option<Status>
    ensures { result ≡ rests_by who.now info.now }
{
    let minimum = info.facts().min;
    if who.lets_pass(minimum) {
        return Some(Status::Pushed(minimum));
    }
    match info.facts().mode {
        Mode::Async if who.is_over(info) => None,
        _ => Some(Status::Waiting(WaitCause::Live)),
    }
}

// What the lock of a primary comes to.
fn standing_by(who: &For, info: LockInfo) -> Primary
    ensures { result ≡ standing_by info (rests_by who.now info) }
{
    match rests_by(who, &info) {
        Some(status) => Primary::Rests(status),
        None => Primary::Expired(info),
    }
}

// What the answer of a primary comes to that tells of no lock.
fn unlocked_by(response: &Result<Answer, Miss>) -> Primary
    ensures { result ≡ unlocked_by response.now }
{
    match response {
        Ok(Answer::Committed(commit)) => Primary::Decided(Fate::Committed(*commit)),
        Ok(Answer::RolledBack) => Primary::Decided(Fate::Aborted),
        other => Primary::Rests(Status::Waiting(waiting_by(other))),
    }
}

/// What the answer of a primary comes to.
pub(crate) fn primary_by(who: &For, response: Result<Answer, Miss>) -> Primary
    ensures { result ≡ primary_by who.now response }
{
    match response {
        Ok(Answer::Locked(info)) => standing_by(who, info),
        other => unlocked_by(&other),
    }
}

/// What the answer of another key comes to.
pub(crate) fn other_by(response: &Result<Answer, Miss>) -> Other
    ensures { result ≡ other_by response.now }
{
    match response {
        Ok(Answer::Locked(info)) => match info.facts().mode {
            Mode::TwoPhase => Other::Ends(Others::FellBack),
            Mode::Async => Other::Async(info.facts().min),
        },
        Ok(Answer::Committed(commit)) => { Other::Ends(Others::Decided(Fate::Committed(*commit))) }
        Ok(Answer::Missing) => Other::Ends(Others::Decided(Fate::Aborted)),
        other => Other::Ends(Others::Rests(waiting_by(other))),
    }
}

// The status of a fate.
fn status_of(fate: &Fate) -> Status
    ensures { result ≡ status_of fate.now }
{
    match fate {
        Fate::Committed(commit) => Status::Committed(*commit),
        Fate::Aborted => Status::Aborted,
    }
}

/// What a fate comes to by the answer of the lock that was given it.
pub(crate) fn settled_by(fate: &Fate, response: &Result<Answer, Miss>) -> Status
    ensures { result ≡ settled_by fate.now response.now }
{
    match response {
        Ok(Answer::Resolved) => status_of(fate),
        other => Status::Waiting(waiting_by(other)),
    }
}
