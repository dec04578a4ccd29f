//! The sessions of a run: their jobs, which workers make side by side, and what these came to.
ghost use Rattle.std.specs.Prelude.{◌≡◌, ◌+◌, ◌≤◌, All, IfOk, IfSome, OnOk, length, map, vec_len};
ghost use Rattle.tx_core.specs.Histories.{Begins};
ghost use Rattle.tx_run.specs.Played.{fresh};
ghost use Rattle.std.specs.List.{list_any};
ghost use Rattle.tx_workload.specs.Answers.{IsReply, numbers_of};
ghost use Rattle.tx_workload.specs.Outcomes.{TellsOutcomes};
ghost use Rattle.tx_run.specs.Jobs.{IsAbove, AreAnswered, AreFalling, AreFrom, AreGathered, ArePlayed, HaveOwnSeats, IsOpened, Joins};
ghost use Rattle.tx_run.specs.Jobs.{job_lines};
ghost use Rattle.tx_workload.specs.LineNumbers.{numbers_in};
ghost use Rattle.tx_workload.specs.Pairs.{TellsPair};
ghost use Rattle.tx_workload.specs.Tells.{AreOwn, TellsLine};

use crate::job::ScriptJob;
use crate::output::JobOutput;
use crate::settings::Settings;
use std::alloc::Global;
use std::sync::{Arc, Wait};
use std::thread::Threads;
use tx_cells::Families;
use tx_journal::{JournalId, Seat, Told};
use tx_sched::{Gate, run_sessions};
use tx_store::Store;
use tx_text::Broken;
use tx_transfer::{Collector, Context, Source};
use tx_types::Fault;
use tx_workload::{Replies, SessionLine};

/// The last two of the seats: for a session, and for its resolver.
pub(crate) fn two_seats<J: JournalId>(seats: &mut Vec<Seat<J>>) -> Option<(Seat<J>, Seat<J>)>
    requires { AreFrom (length J.bounds + 1) seats.old.items }
    ensures rest { AreFrom (length J.bounds + 1) seats.new.items }
    ensures two { IfSome result (λ two. (vec_len seats.new + 2 ≡ vec_len seats.old)
        × (two.0.seat ≡ length J.bounds + vec_len seats.old)) }
    ensures fresh { IfSome result (λ two. two.0 ≡ fresh two.0.seat) }
{
    let seat = seats.pop()?;
    let resolver = seats.pop()?;
    Some((seat, resolver))
}

// The sessions' jobs, numbered in their order, each with a seat of its own.
fn jobs<J: JournalId, L: Source, F: Families + Drop, R: Wait + Clone + Drop>(
    rt: &R,
    alloc: Global,
    store: &Arc<Store<J, F>>,
    mut seats: Vec<Seat<J>>,
    sessions: Vec<Vec<SessionLine<L>>>,
    life_time: Option<u64>,
) -> Result<Vec<ScriptJob<J, L, F, R>>, Fault>
    requires seats { AreFrom (length J.bounds + 1) seats.items }
    requires few { vec_len sessions ≤ 256 }
    requires own { AreOwn L.text (numbers_in sessions.items) }
    ensures seats { IfOk result (λ jobs. HaveOwnSeats (length J.bounds + vec_len seats) jobs.items) }
    ensures lines { IfOk result (λ jobs. map job_lines jobs.items ≡ numbers_in sessions.items) }
{
    let mut jobs = Vec::with_capacity(alloc, sessions.len())?;
    let mut number: u32 = 0;
    for lines in sessions {
        let Some((seat, resolver)) = two_seats(&mut seats) else {
            return Err(Fault::OutOfMemory);
        };
        let context = Context::new(alloc, rt.clone()?, store.clone()?, resolver);
        let collector = Collector::of(number, life_time);
        jobs.push(ScriptJob::new(number, context, seat, lines, collector)?)?;
        number += 1;
    }
    Ok(jobs)
}

/// Makes the sessions' lines by the workers.
pub(crate) fn work<J, L, F, G, R>(
    rt: &R,
    alloc: Global,
    settings: Settings,
    gate: &G,
    store: &Arc<Store<J, F>>,
    seats: Vec<Seat<J>>,
    sessions: Vec<Vec<SessionLine<L>>>,
) -> Result<Vec<JobOutput<J, L>>, Fault>
where
    J: JournalId + Send + Sync,
    L: Source + Send,
    F: Families + Send + Drop,
    G: Gate + Sync,
    R: Threads + Wait + Sync + Send + Clone + Drop,
    requires seats { AreFrom (length J.bounds + 1) seats.items }
    requires few { vec_len sessions ≤ 256 }
    requires own { AreOwn L.text (numbers_in sessions.items) }
    ensures falling { IfOk result (λ outputs. AreFalling outputs.items) }
    ensures answered { IfOk result (λ outputs. AreAnswered (numbers_in sessions.items) outputs.items) }
    ensures played { IfOk result (λ outputs. ArePlayed J.bounds L.text outputs.items) }
{
    let jobs = jobs(rt, alloc, store, seats, sessions, settings.life_time)?;
    let outputs = run_sessions(rt, alloc, settings.workers, jobs, gate)?;
    Ok(outputs)
}

// Knows what a session's seat knew at last.
fn learn_last<J: JournalId>(seat: &mut Seat<J>, last: Option<Told<J>>)
    ensures grew { Begins seat.old.events seat.new.events }
    ensures knows { IfSome last (λ told. Begins told seat.new.events) }
{
    if let Some(told) = last {
        seat.learn(told);
    }
}

// Adds a session's log to the replies. Sessions come by falling seats. Returns whether a script
// fault ended it.
fn join<J: JournalId, L: Source>(
    output: JobOutput<J, L>,
    seat: &mut Seat<J>,
    replies: &mut Replies,
) -> Result<bool, Broken>
    requires told { TellsOutcomes seat.old.events replies.old }
    requires above { All (λ s. IsAbove seat.old.events (output.log.seat + 1) s.answer) replies.old }
    requires pairs { All (TellsPair L.text) replies.old }
    requires tells { All (TellsLine L.text J.bounds seat.old.events) replies.old }
    ensures told { OnOk result (TellsOutcomes seat.new.events replies.new) }
    ensures pairs { OnOk result (All (TellsPair L.text) replies.new) }
    ensures tells { OnOk result (All (TellsLine L.text J.bounds seat.new.events) replies.new) }
    ensures above { OnOk result (All (λ s. IsAbove seat.new.events output.log.seat s.answer) replies.new) }
    ensures joins { OnOk result (Joins seat.old.events replies.old output seat.new.events replies.new) }
    ensures fault { IfOk result (λ fault. fault ≡ output.faulted) }
{
    let JobOutput {
        number: _,
        log,
        faulted,
        stage: _,
        collected: _,
        requests: _,
        last,
    } = output;
    learn_last(seat, last);
    let (told, more, lost) = log.into_parts();
    seat.learn(told);
    if lost {
        return Err(Broken::Memory);
    }
    replies.add(more)?;
    Ok(faulted)
}

/// Takes over what all sessions came to: whether a fault ended one.
pub(crate) fn gather<J: JournalId, L: Source>(
    outputs: Vec<JobOutput<J, L>>,
    seat: &mut Seat<J>,
    replies: &mut Replies,
) -> Result<bool, Broken>
    requires falling { AreFalling outputs.items }
    requires none { All (λ s. IsReply s.answer) replies.old }
    requires tells { All (TellsLine L.text J.bounds seat.old.events) replies.old }
    requires opened { IsOpened J.bounds L.text seat.old.events replies.old }
    ensures told { OnOk result (TellsOutcomes seat.new.events replies.new) }
    ensures pairs { OnOk result (All (TellsPair L.text) replies.new) }
    ensures tells { OnOk result (All (TellsLine L.text J.bounds seat.new.events) replies.new) }
    ensures comes { OnOk result (AreGathered J.bounds L.text (numbers_of replies.old) seat.new.events replies.new
        outputs.items) }
    ensures faulted { IfOk result (λ faulted. faulted ≡ list_any (λ o. o.faulted) outputs.items) }
{
    let mut faulted = false;
    for output in outputs {
        let fault = join(output, seat, replies)?;
        faulted |= fault;
    }
    Ok(faulted)
}
