//! How many lines of a run are told each refusal.
ghost use Rattle.std.specs.Prelude.{◌≡◌};
ghost use Rattle.std.specs.List.{fold};
ghost use Rattle.tx_run.specs.Refusals.{answer_refusal, refusals_in, reply_refusal, with_line};

use tx_core::Answer;
use tx_reply::ScriptReply;
use tx_transfer::Refusals;
use tx_workload::{LineAnswer, LineReply, Replies};

// One line that is told this of a region.
fn of_answer(answer: &Answer) -> Refusals
    ensures { result ≡ answer_refusal answer.now }
{
    match answer {
        Answer::KeyIsLocked(_) => Refusals {
            key_is_locked: 1,
            ..Refusals::NONE
        },
        Answer::WriteConflict { .. } => Refusals {
            write_conflict: 1,
            ..Refusals::NONE
        },
        Answer::AlreadyRolledBack => Refusals {
            already_rolled_back: 1,
            ..Refusals::NONE
        },
        Answer::TxnLockNotFound => Refusals {
            txn_lock_not_found: 1,
            ..Refusals::NONE
        },
        Answer::CommitTsExpired { .. } => Refusals {
            commit_ts_expired: 1,
            ..Refusals::NONE
        },
        Answer::AlreadyExists => Refusals {
            already_exists: 1,
            ..Refusals::NONE
        },
        Answer::BelowSafePoint { .. } => Refusals {
            below_safe_point: 1,
            ..Refusals::NONE
        },
        _ => Refusals::NONE,
    }
}

// One line that is told this.
fn of_reply(reply: &ScriptReply) -> Refusals
    ensures { result ≡ reply_refusal reply.now }
{
    match reply {
        ScriptReply::Answered(answer) => of_answer(answer),
        ScriptReply::AlreadyExists => of_answer(&Answer::AlreadyExists),
        ScriptReply::Status(_) => Refusals {
            resolves: 1,
            ..Refusals::NONE
        },
        _ => Refusals::NONE,
    }
}

// These, and one more line that is told this.
fn and_line(refusals: Refusals, answer: &LineAnswer) -> Refusals
    ensures { result ≡ with_line refusals answer.now }
{
    match answer {
        LineAnswer::Plain(Ok(plain)) => refusals.and(of_reply(plain.reply())),
        _ => refusals,
    }
}

// These, and those of some lines.
fn and_lines(mut refusals: Refusals, lines: &[LineReply]) -> Refusals
    ensures { result ≡ fold (λ r s. with_line r s.answer) refusals lines.now }
{
    for reply in lines {
        refusals = and_line(refusals, &reply.answer);
    }
    refusals
}

/// How many lines are told each refusal, and how many what became of a lock that was asked after.
pub(crate) fn count_lines(replies: &Replies) -> Refusals
    ensures { result ≡ refusals_in replies.now }
{
    let mut refusals = Refusals::NONE;
    for part in replies.parts() {
        refusals = and_lines(refusals, part.as_slice());
    }
    refusals
}
