//! Prewrite: a lock on a key, the first phase of a commit.
ghost use Rattle.std.specs.Prelude.{◌≡◌, ◌<◌, ◌↔◌, ℕ, IsTrue, Option, None, IfSome};
ghost use Rattle.tx_types.specs.Keys.{IsInsert};
ghost use Rattle.tx_types.specs.declared.lock.LockInfo.{LockInfo};
ghost use Rattle.tx_plan.specs.Cells.{Cells};
ghost use Rattle.tx_plan.specs.Changes.{new_lock, after_put, CanPut};
ghost use Rattle.tx_plan.specs.FreeKeys.{AnswersLock};
ghost use Rattle.tx_plan.specs.Plans.{answer_with};
ghost use Rattle.tx_plan.specs.Views.{Shows, info_on};
ghost use Rattle.tx_plan.specs.cases.Prewrite.{AnswersPrewrite, read_by_prewrite, check_by, HasValue, least_minimum, IsWithin};
ghost use Rattle.tx_plan.specs.Answers.{leaves_on};
ghost use Rattle.tx_plan.specs.declared.body.Body.TheVariants as asked;

use crate::answer::Answer;
use crate::body::Prewrite;
use crate::key_change::{KeyChange, NewLock};
use crate::plan::own::{is_rolled_back, own_lock};
use crate::planned_answer::{Plan, PlannedAnswer};
use crate::view::TxnView;
use tx_types::{Mode, Mutation, Ts};

/// The answer to a Prewrite that sees this of its key, on which a read at its start finds a value
/// or not (only an insert asks for that), in a region with this safe point, whose seat loaded
/// `loaded`, and the lock that is put. An async lock promises the least minimum, which lies above
/// `mark`, the greatest timestamp that was read in any region, and not below the floor; where the
/// transaction's greatest commit timestamp does not allow that, the lock is a two-phase one.
/// `BelowSafePoint` and `FutureTimestamp` where the start lies below `safe` or above `loaded`;
/// `AlreadyRolledBack` and `AlreadyCommitted` where the transaction's own record is there and its
/// lock is not; `KeyIsLocked` by another's lock; `WriteConflict`, with the newest commit record,
/// where there is one above the start; `AlreadyExists` where an insert finds a value. An insert
/// reads at its start: where it finds a value, and where its lock is put.
pub fn plan_prewrite(
    view: &TxnView,
    has_value: bool,
    safe: Ts,
    loaded: Ts,
    mark: Ts,
    body: &Prewrite,
) -> Plan
    requires room { loaded < u64.MAX }
    requires above { mark < u64.MAX }
    ensures answers { (cells : Cells) (commit : ℕ) → Shows cells body.now.start commit view.now
        → (IsInsert body.now.mutation → IsTrue has_value ↔ HasValue cells.write body.now.start)
        → AnswersPrewrite cells safe loaded (λ m. m
        ≡ least_minimum mark body.now) body.now (answer_with (info_on cells body.now.key) result.answer) }
    ensures leaves { (cells : Cells) (commit : ℕ) → Shows cells body.now.start commit view.now
        → after_put cells body.now (new_lock result.change)
        ≡ leaves_on cells (asked.Prewrite body.now) (answer_with (info_on cells body.now.key) result.answer) }
    ensures applies { (cells : Cells) (commit : ℕ) → Shows cells body.now.start commit view.now
        → IfSome (new_lock result.change) (λ new. CanPut cells body.now new) }
    ensures read { (cells : Cells) (commit : ℕ) → Shows cells body.now.start commit view.now
        → result.read ≡ read_by_prewrite (answer_with (info_on cells body.now.key) result.answer) cells.lock body.now }
{
    if body.start < safe {
        return Plan::given(Answer::BelowSafePoint { safe });
    }
    if loaded < body.start {
        return Plan::given(Answer::FutureTimestamp { last: loaded });
    }
    if let Some(lock) = own_lock(view, body.start) {
        return Plan::given(Answer::Prewritten(lock.mode.async_min(lock.min)));
    }
    if is_rolled_back(view, body.start) {
        return Plan::given(Answer::AlreadyRolledBack);
    }
    if let Some(commit) = view.own_commit {
        return Plan::given(Answer::AlreadyCommitted { commit });
    }
    if view.lock.is_some() {
        return Plan::unchanged(PlannedAnswer::KeyIsLocked);
    }
    if let Some(newest) = view.newest_above {
        return Plan::given(Answer::WriteConflict {
            start: newest.start,
            commit: newest.commit,
        });
    }
    if finds_value(&body.mutation, has_value) {
        return Plan {
            answer: PlannedAnswer::Given(Answer::AlreadyExists),
            change: KeyChange::Nothing,
            read: Some(body.start),
        };
    }
    lock_key(mark, body)
}

// Whether an insert finds a value.
fn finds_value(mutation: &Mutation, has_value: bool) -> bool
    ensures { IsTrue result ↔ (IsInsert mutation.now × IsTrue has_value) }
{
    match mutation {
        Mutation::Insert(_) => has_value,
        Mutation::Put(_) | Mutation::Delete | Mutation::Lock => false,
    }
}

// The timestamp at which an insert reads its key.
fn check(body: &Prewrite) -> Option<Ts>
    ensures { result ≡ check_by body.now.mutation body.now.start }
{
    match body.mutation {
        Mutation::Insert(_) => Some(body.start),
        Mutation::Put(_) | Mutation::Delete | Mutation::Lock => None,
    }
}

// The answer of a free key, and the lock that is put.
fn lock_key(mark: Ts, body: &Prewrite) -> Plan
    requires room { body.now.start < u64.MAX }
    requires above { mark < u64.MAX }
    ensures answers { (info : Option LockInfo) → AnswersLock (λ m. m
        ≡ least_minimum mark body.now) body.now (answer_with info result.answer) }
    ensures leaves { (cells : Cells) → cells.lock ≡ None
        → after_put cells body.now (new_lock result.change)
        ≡ leaves_on cells (asked.Prewrite body.now) (answer_with (info_on cells body.now.key) result.answer) }
    ensures minimum { IfSome (new_lock result.change) (λ new. body.now.start < new.min) }
    ensures read { (cells : Cells) → cells.lock ≡ None
        → result.read ≡ read_by_prewrite (answer_with (info_on cells body.now.key) result.answer) cells.lock body.now }
{
    let above = mark.get().max(body.start.get()) + 1;
    let min = Ts::new(above.max(body.floor.get()));
    if body.mode == Mode::Async && is_within(body.max_commit, min) {
        return Plan {
            answer: PlannedAnswer::Given(Answer::Prewritten(min)),
            change: KeyChange::Lock(NewLock {
                mode: Mode::Async,
                min,
            }),
            read: check(body),
        };
    }
    Plan {
        answer: PlannedAnswer::Given(Answer::Prewritten(Ts::ZERO)),
        change: KeyChange::Lock(NewLock {
            mode: Mode::TwoPhase,
            min: Ts::new(body.start.get() + 1),
        }),
        read: check(body),
    }
}

// Whether a greatest commit timestamp allows this minimum.
fn is_within(max_commit: Option<Ts>, min: Ts) -> bool
    ensures { IsTrue result ↔ IsWithin max_commit min }
{
    match max_commit {
        None => true,
        Some(max_commit) => min <= max_commit,
    }
}
