//! What a run came to, counted from what was played.
use std::time::Duration;
use tx_command::Stats;
use tx_core::Outcome;
use tx_run::{LineAnswer, LineReply, RunResult};

// Counts the outcome of a line, if it is told one.
fn count(stats: &mut Stats, answer: &LineAnswer) {
    let LineAnswer::Ended(_, outcome, keys) = answer else {
        return;
    };
    let told = match outcome {
        Outcome::Committed(_) => &mut stats.committed,
        Outcome::Aborted => &mut stats.aborted,
        Outcome::Unknown(_) => &mut stats.unknown,
        Outcome::ReadOnly => &mut stats.read_only,
    };
    *told = told.saturating_add(1);
    if keys.is_some() {
        stats.transfers = stats.transfers.saturating_add(1);
    }
}

// Counts the outcomes of these lines.
fn count_all(stats: &mut Stats, lines: &[LineReply]) {
    for reply in lines {
        count(stats, &reply.answer);
    }
}

/// What was played in so much time.
pub(crate) fn stats_of(played: &RunResult, elapsed: Duration) -> Stats {
    let mut stats = Stats {
        collected: played.collected,
        elapsed,
        ..Stats::NOTHING
    };
    for part in played.replies.parts() {
        count_all(&mut stats, part.as_slice());
    }
    stats
}
