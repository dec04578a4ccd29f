//! How many lines of a run are told each outcome, and the two lines of sums that
//! follow its answers.
ghost use Rattle.std.specs.Prelude.{◌≡◌, ◌++◌, map, OnOk};
ghost use Rattle.tx_workload.specs.Texts.{IsRoomy, counted, counts_of, outcomes_text, total_text};

use crate::reply::{LineAnswer, LineReply};
use itoa::Buffer;
use std::alloc::AllocError;
use tx_core::Outcome;
use tx_text::put_number;

/// How many lines are told each outcome.
#[derive(Clone, Copy, Debug, PartialEq, Eq)]
pub(crate) struct RunCounts {
    pub committed: u64,
    pub aborted: u64,
    pub unknown: u64,
    pub read_only: u64,
}

impl RunCounts {
    // Counts the outcome that one more line is told, if it is told one.
    fn add(&mut self, answer: &LineAnswer)
        requires { IsRoomy self.old }
        ensures { self.new ≡ counted self.old answer.now }
    {
        match answer {
            LineAnswer::Ended(_, Outcome::Committed(_), _) => self.committed += 1,
            LineAnswer::Ended(_, Outcome::Aborted, _) => self.aborted += 1,
            LineAnswer::Ended(_, Outcome::Unknown(_), _) => self.unknown += 1,
            LineAnswer::Ended(_, Outcome::ReadOnly, _) => self.read_only += 1,
            LineAnswer::Plain(_) => {}
        }
    }
}

/// How many of these lines are told each outcome.
pub(crate) fn counts_of(lines: &[(u64, &LineReply)]) -> RunCounts
    ensures { result ≡ counts_of (map (λ line. line.1.now) lines.now) }
{
    let mut counts = RunCounts {
        committed: 0,
        aborted: 0,
        unknown: 0,
        read_only: 0,
    };
    for (_, reply) in lines {
        counts.add(&reply.answer);
    }
    counts
}

/// Appends the line of the counts.
pub(crate) fn put_outcomes(out: &mut Vec<u8>, counts: RunCounts) -> Result<(), AllocError>
    ensures { OnOk result (out.new.items ≡ out.old.items ++ outcomes_text counts) }
{
    out.extend_from_slice(b"[\"outcomes\"")?;
    put_number(out, counts.committed)?;
    put_number(out, counts.aborted)?;
    put_number(out, counts.unknown)?;
    put_number(out, counts.read_only)?;
    out.extend_from_slice(b"]\n")?;
    Ok(())
}

/// Appends the line of the sum of all balances.
#[tactic(auto, unfolding(json::specs::Print::escape_byte, crate::specs::Texts::total_text))]
pub(crate) fn put_total(out: &mut Vec<u8>, total: u128) -> Result<(), AllocError>
    ensures { OnOk result (out.new.items ≡ out.old.items ++ total_text total) }
{
    let mut buffer = Buffer::new();
    out.extend_from_slice(b"[\"total\",")?;
    out.extend_from_slice(buffer.format(total).as_bytes())?;
    out.extend_from_slice(b"]\n")
}
