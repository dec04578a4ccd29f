//! A run, from the first byte of its script to the last of its answers.
ghost use Rattle.std.specs.Prelude.{◌≡◌, All, IfOk, IfSome, OnErr};
ghost use Rattle.tx_workload.specs.Faults.{IsFaultless};
ghost use Rattle.tx_workload.specs.Outcomes.{TellsOutcomes};
ghost use Rattle.tx_workload.specs.Pairs.{TellsPair};
ghost use Rattle.tx_workload.specs.Tells.{AllTell};
ghost use Rattle.tx_workload.specs.Totals.{TellsTotal};
ghost use Rattle.tx_workload.specs.Answers.{has_fault};
ghost use Rattle.tx_run.specs.Jobs.{ComesOfText};
ghost use Rattle.tx_run.specs.Refusals.{refusals_in};
ghost use Rattle.tx_run.specs.Sums.{SumsBehind};
ghost use Rattle.tx_workload.specs.Texts.{IsTextFrom, WritesText, WritesPart};
ghost use Rattle.tx_run.specs.Texts.{IsRunText, end_of};

use crate::play::{RunResult, play_script};
use crate::settings::Settings;
use std::alloc::Global;
use std::io::{BufRead, Write};
use std::marker::Brand;
use std::sync::Wait;
use std::thread::Threads;
use tx_cells::{Families, Makes};
use tx_sched::Gate;
use tx_text::{Broken, End};
use tx_transfer::Source;
use tx_workload::{read_script, write_all, write_fault};

// Reads the script of this text, plays it, and writes what came of it.
fn run<L, F, M, G, R, B, W>(
    rt: &R,
    alloc: Global,
    settings: Settings,
    make: &M,
    gate: &G,
    reader: &mut B,
    writer: &mut W,
) -> Result<(End, Option<RunResult>), Broken>
where
    L: Source + Send,
    F: Families + Send + Drop,
    M: Makes<F>,
    G: Gate + Sync,
    R: Threads + Wait + Sync + Send + Clone + Drop,
    B: BufRead,
    W: Write,
    requires { L.text ≡ B.remaining reader.old }
    ensures told { IfOk result (λ r. IfSome r.1 (λ played. TellsOutcomes played.seen.events played.replies)) }
    ensures pairs { IfOk result (λ r. IfSome r.1 (λ played. All (TellsPair L.text) played.replies)) }
    ensures tells { IfOk result (λ r. IfSome r.1 (λ played. AllTell L.text played.seen played.replies)) }
    ensures comes { IfOk result (λ r. IfSome r.1
        (λ played. ComesOfText L.text played.seen.bounds played.seen.events played.replies played.stages.items)) }
    ensures faulted { IfOk result (λ r. IfSome r.1 (λ played. played.faulted ≡ has_fault played.replies)) }
    ensures refusals { IfOk result (λ r. IfSome r.1 (λ played. played.refusals ≡ refusals_in played.replies)) }
    ensures total { IfOk result (λ r. IfSome r.1 (λ played. TellsTotal played.seen played.replies played.total)) }
    ensures sums { IfOk result
        (λ r. IfSome r.1 (λ played. SumsBehind L.text played.seen played.replies played.total)) }
    ensures wrote { IfOk result
        (λ r. WritesText (W.contents writer.old) (W.contents writer.new) (IsRunText L.text r.1)) }
    ensures ends { IfOk result (λ r. r.0 ≡ end_of r.1) }
    ensures whole { IfOk result (λ r. IfSome r.1 (λ played. IsFaultless L.text)) }
    ensures broken { OnErr result (WritesPart (W.contents writer.old) (W.contents writer.new) (IsTextFrom L.text)) }
{
    let script = match read_script::<L, B>(alloc, reader)? {
        Ok(script) => script,
        Err((number, cause)) => {
            write_fault(alloc, writer, number, cause)?;
            return Ok((End::Faulted, None));
        }
    };
    let played = play_script::<L, F, M, G, R>(rt, alloc, settings, make, gate, script)?;
    played.seen.show();
    write_all(alloc, writer, &played.replies, played.total)?;
    let end = if played.faulted {
        End::Faulted
    } else {
        End::Well
    };
    Ok((end, Some(played)))
}

/// Reads a script, and plays it as is set, by 1 to 64 workers: the seeds in the order of their
/// lines, and then the lines of each session in their order, the sessions side by side. Then it
/// writes the answer of each line in the order of the lines, the counts of the outcomes, and the
/// sum of all balances. The first fault of the form of a line, or a 257th session, is told alone,
/// and nothing is played. `make` gives each region its families.
///
/// It hands back what was played, where the script was played: each session has answers of the
/// lines that the text says are its own, in their order, up to a fault; each outcome that a line is
/// told was answered in what all sessions had seen, no two are of one transaction, and the
/// transaction of a transfer that was committed or aborted declared changes of just the two keys
/// that its line says. Each other reply tells of what all sessions had seen, or of what a line of
/// the same name before it entered; a seed that is told to be done was declared as its put alone
/// and answered as committed. Where the script's bytes are known, seeds and sessions were played
/// line by line, each line from what the one before it left, and each transfer by its own requests;
/// how far a session is said to be is so of the state in which its last line was out of order.
/// The total is the sum of the balances that the one-step machine sees at one timestamp, at or
/// above each commit that a line is told.
pub fn run_script<F, M, G, R, B, W>(
    rt: &R,
    alloc: Global,
    settings: Settings,
    make: &M,
    gate: &G,
    reader: &mut B,
    writer: &mut W,
) -> Result<(End, Option<RunResult>), Broken>
where
    F: Families + Send + Drop,
    M: Makes<F>,
    G: Gate + Sync,
    R: Threads + Wait + Sync + Send + Clone + Drop,
    B: BufRead,
    W: Write,
    ensures told { IfOk result (λ r. IfSome r.1 (λ played. TellsOutcomes played.seen.events played.replies)) }
    ensures pairs { IfOk result
        (λ r. IfSome r.1 (λ played. All (TellsPair (B.remaining reader.old)) played.replies)) }
    ensures tells { IfOk result
        (λ r. IfSome r.1 (λ played. AllTell (B.remaining reader.old) played.seen played.replies)) }
    ensures comes { IfOk result
        (λ r. IfSome r.1 (λ played. ComesOfText (B.remaining reader.old) played.seen.bounds played.seen.events
        played.replies played.stages.items)) }
    ensures faulted { IfOk result (λ r. IfSome r.1 (λ played. played.faulted ≡ has_fault played.replies)) }
    ensures refusals { IfOk result (λ r. IfSome r.1 (λ played. played.refusals ≡ refusals_in played.replies)) }
    ensures total { IfOk result (λ r. IfSome r.1 (λ played. TellsTotal played.seen played.replies played.total)) }
    ensures sums { IfOk result
        (λ r. IfSome r.1 (λ played. SumsBehind (B.remaining reader.old) played.seen played.replies played.total)) }
    ensures wrote { IfOk result
        (λ r. WritesText (W.contents writer.old) (W.contents writer.new) (IsRunText (B.remaining reader.old) r.1)) }
    ensures ends { IfOk result (λ r. r.0 ≡ end_of r.1) }
    ensures whole { IfOk result (λ r. IfSome r.1 (λ played. IsFaultless (B.remaining reader.old))) }
    ensures broken { OnErr result
        (WritesPart (W.contents writer.old) (W.contents writer.new) (IsTextFrom (B.remaining reader.old))) }
{
    run::<Brand, F, M, G, R, B, W>(rt, alloc, settings, make, gate, reader, writer)
}
