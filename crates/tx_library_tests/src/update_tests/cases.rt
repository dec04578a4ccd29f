//! Cases of updates.
use crate::update_tests::cases::Before::{Empty, Lock, Rival, Value};
use crate::update_tests::works::Deed::{
    self, GiveUp, Insert, Put, PutAndGiveUp, PutBoth, PutOnce, Read,
};
use tx_harness::Delivery::{self, Late, Lose, LoseReply, Refuse, Repeat};
use tx_types::Mode::{self, Async, TwoPhase};

/// What stands in the store when an update begins.
#[derive(Clone, Copy)]
pub enum Before {
    /// Nothing.
    Empty,
    /// The value 5 on the key `a`.
    Value,
    /// A lock on the key `a`, in two phases, that lives so many ticks and whose session is gone.
    Lock(u32),
    /// Nothing; in the first try a rival puts 9 on the key `a`.
    Rival,
}

/// One case: what stands there; after how many requests one fares how; what is done, in which mode,
/// and how often it is tried again; then how it ends, how often it was done, and what the key `a`
/// has in the end, 0 for no value.
#[derive(Clone, Copy)]
pub struct Case(
    pub Before,
    pub (u32, Delivery),
    pub (Deed, Mode),
    pub u32,
    pub (&'static str, &'static str),
    pub u32,
    pub u8,
);

const PLAIN: (u32, Delivery) = (0, Delivery::Plain);

// How the last try ends, and why it goes no further.
const DONE: (&str, &str) = ("committed", "done");

const READ: (&str, &str) = ("read-only", "done");

const CONFLICT: (&str, &str) = ("aborted", "conflict");

const GIVEN_UP: (&str, &str) = ("read-only", "gave up");

const EXISTS: (&str, &str) = ("aborted", "exists");

const WAITS: (&str, &str) = ("aborted", "waits");

const LOST: (&str, &str) = ("aborted", "lost");

const UNHEARD: (&str, &str) = ("committed", "lost");

const REFUSED: (&str, &str) = ("aborted", "refused");

const READ_REFUSED: (&str, &str) = ("read-only", "refused");

pub const CASES: &[Case] = &[
    // It goes well at once.
    Case(Empty, PLAIN, (Put(1), TwoPhase), 0, DONE, 1, 1),
    Case(Empty, PLAIN, (PutBoth(1), Async), 0, DONE, 1, 1),
    Case(Empty, PLAIN, (Insert(1), Async), 0, DONE, 1, 1),
    Case(Value, PLAIN, (Read, Async), 0, READ, 1, 5),
    // A conflict is tried again, as often as it may be.
    Case(Rival, PLAIN, (Put(1), TwoPhase), 0, CONFLICT, 1, 9),
    Case(Rival, PLAIN, (Put(1), TwoPhase), 1, DONE, 2, 1),
    Case(Rival, PLAIN, (PutBoth(1), Async), 3, DONE, 2, 1),
    // One that does not go on is not.
    Case(Rival, PLAIN, (PutOnce(1), TwoPhase), 3, CONFLICT, 1, 9),
    // What it gives up, or what a later try does not help, is not.
    Case(Empty, PLAIN, (GiveUp, Async), 3, GIVEN_UP, 1, 0),
    Case(Value, PLAIN, (Insert(1), Async), 3, EXISTS, 1, 5),
    // What it has entered before it gives up is not written.
    Case(Empty, PLAIN, (PutAndGiveUp(1), Async), 3, GIVEN_UP, 1, 0),
    Case(Value, PLAIN, (PutAndGiveUp(1), TwoPhase), 3, GIVEN_UP, 1, 5),
    // A lock past its time is rolled back; one that lives is waited for by a write, and passed by a
    // read.
    Case(Lock(0), PLAIN, (Put(1), TwoPhase), 0, DONE, 1, 1),
    Case(Lock(100), PLAIN, (Put(1), TwoPhase), 2, WAITS, 3, 0),
    Case(Lock(100), PLAIN, (Read, TwoPhase), 0, READ, 1, 0),
    // A request is lost: it is aborted, and tried again.
    Case(Empty, (0, Lose), (Put(1), TwoPhase), 0, LOST, 1, 0),
    Case(Empty, (0, Lose), (Put(1), TwoPhase), 1, DONE, 2, 1),
    // The reply that decides is lost: it is asked for.
    Case(Empty, (1, LoseReply), (Put(1), TwoPhase), 1, UNHEARD, 1, 1),
    Case(Empty, (0, LoseReply), (Put(1), Async), 1, UNHEARD, 1, 1),
    // A request is taken twice: it is answered as before.
    Case(Empty, (0, Repeat), (Put(1), TwoPhase), 0, DONE, 1, 1),
    Case(Empty, (1, Repeat), (Put(1), TwoPhase), 0, DONE, 1, 1),
    Case(Empty, (0, Repeat), (Insert(1), Async), 0, DONE, 1, 1),
    // A prewrite or a commit that comes after the rollback that its sender asked for changes
    // nothing.
    Case(Empty, (0, Late), (Put(1), TwoPhase), 1, DONE, 2, 1),
    Case(Empty, (0, Late), (Put(1), Async), 0, LOST, 1, 0),
    Case(Empty, (1, Late), (Put(1), TwoPhase), 0, LOST, 1, 0),
    // Memory is refused.
    Case(Empty, (0, Refuse), (Put(1), Async), 3, REFUSED, 1, 0),
    Case(Value, (0, Refuse), (Read, Async), 3, READ_REFUSED, 1, 5),
];
