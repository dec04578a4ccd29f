//! E2 to a commit: another transaction's commit record stands at the commit timestamp of a lock.
use crate::table_tests::ask::key;
use std::test::Fail;
use tx_plan::{
    Answer, Commit, KeyChange, LockHead, Plan, PlannedAnswer, RecordHead, ResolveLock, TxnView,
    plan_commit, plan_resolve_lock,
};
use tx_types::{Fate, LockKind, Mode, Ts};

// The lock of the transaction that started at 5, and at its commit timestamp the commit record of
// the one that started at 4.
fn view() -> TxnView {
    TxnView {
        lock: Some(LockHead {
            start: Ts::new(5),
            min: Ts::new(7),
            ttl: 10,
            kind: LockKind::Delete,
            mode: Mode::TwoPhase,
        }),
        at_start: None,
        at_commit: Some(RecordHead::Commit {
            kind: LockKind::Lock,
            start: Ts::new(4),
            overlapped_rollback: false,
        }),
        own_commit: None,
        newest_above: None,
    }
}

// Whether a plan tells of that record, and changes nothing.
fn is_conflict(given: Plan) -> bool {
    let told = match &given.answer {
        PlannedAnswer::Given(Answer::WriteConflict { start, commit }) => {
            start.get() == 4 && commit.get() == 9
        }
        _ => false,
    };
    let same = matches!(given.change, KeyChange::Nothing);
    drop(given);
    told && same
}

#[test]
fn a_record_at_the_commit_timestamp_is_a_conflict(rt: HostRuntime) -> Result<(), Fail> {
    let commit = Commit {
        key: key(rt.alloc(), b'k')?,
        start: Ts::new(5),
        commit: Ts::new(9),
    };
    assert!(rt; is_conflict(plan_commit(&view(), Ts::new(3), &commit)));
    let resolve = ResolveLock {
        key: key(rt.alloc(), b'k')?,
        start: Ts::new(5),
        fate: Fate::Committed(Ts::new(9)),
    };
    assert!(rt; is_conflict(plan_resolve_lock(&view(), Ts::new(3), &resolve)));
    Ok(())
}
