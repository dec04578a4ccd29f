//! Playing a script: its seeds, and then its sessions side by side, by workers.
ghost use Rattle.std.specs.Prelude.{◌≡◌, ◌+◌, ◌≤◌, ◌++◌, [], All, IfOk, OnOk, length, map, vec_len};
ghost use Rattle.std.specs.List.{list_any};
ghost use Rattle.tx_workload.specs.Answers.{IsReply, has_fault, numbers_of};
ghost use Rattle.tx_workload.specs.Outcomes.{TellsOutcomes};
ghost use Rattle.tx_run.specs.Jobs.{AreFalling, AreFrom, AreGathered, ComesOf, IsOpened, IsSubsequence, stages_in};
ghost use Rattle.tx_run.specs.Played.{fresh};
ghost use Rattle.tx_run.specs.Refusals.{refusals_in};
ghost use Rattle.tx_run.specs.Sums.{SumsBehind};
ghost use Rattle.tx_workload.specs.LineNumbers.{numbers_in};
ghost use Rattle.tx_workload.specs.ScriptLines.{opening_of};
ghost use Rattle.tx_workload.specs.Scripts.{IsWithin};
ghost use Rattle.tx_workload.specs.Pairs.{TellsPair};
ghost use Rattle.tx_workload.specs.Tells.{AreOwn, OpensWith, TellsLine};
ghost use Rattle.tx_workload.specs.Totals.{TellsTotal, seen_in};
ghost use Rattle.tx_core.specs.Histories.{History, Begins};

use crate::output::{JobOutput, count_collected, count_requests, stages_of};
use crate::refusals::count_lines;
use crate::sessions::{gather, two_seats, work};
use crate::settings::Settings;
use std::alloc::Global;
use std::marker::Brand;
use std::sync::{Arc, Wait};
use std::thread::Threads;
use tx_cells::{Families, Makes, make_families};
use tx_journal::{JournalId, Opened, Seat, Unnamed};
use tx_ops::SessionStage;
use tx_sched::Gate;
use tx_store::Store;
use tx_text::Broken;
use tx_transfer::{Context, PlainReply, Refusals, Source, read_total};
use tx_types::Fault;
use tx_workload::{LineAnswer, LineReply, Replies, Script, ScriptLine, SessionLine, play_seeds};

// A store, and the seats for others than its regions.
fn open<J: JournalId, F: Families + Drop, M: Makes<F>>(
    alloc: Global,
    make: &M,
    opened: Opened,
    regions: usize,
) -> Result<(Store<J, F>, Vec<Seat<J>>), Fault>
    requires name { (opened.table ≡ J.table) × (opened.bounds ≡ J.bounds) × (opened.seats ≡ J.seats) }
    requires count { regions ≡ length J.bounds + 1 }
    ensures { IfOk result (λ r. AreFrom (length J.bounds + 1) r.1.items) }
{
    let families = make_families(alloc, make, regions)?;
    Store::open(alloc, opened, families)
}

fn memory(_fault: Fault) -> Broken {
    Broken::Memory
}

// Sums all balances, once all sessions are over. What the replies tell stays so.
fn sum_up<J: JournalId, L: Source, F: Families + Drop, R: Wait + Drop>(
    seat: Seat<J>,
    context: &mut Context<J, F, R>,
    replies: &Replies,
) -> Result<(u128, Seat<J>), Broken>
    requires told { TellsOutcomes seat.events replies.now }
    requires tells { All (TellsLine L.text J.bounds seat.events) replies.now }
    ensures told { IfOk result (λ r. TellsOutcomes r.1.events replies.now) }
    ensures tells { IfOk result (λ r. All (TellsLine L.text J.bounds r.1.events) replies.now) }
    ensures total { IfOk result (λ r. TellsTotal (seen_in J.bounds r.1.events) replies.now r.0) }
    ensures sums { IfOk result (λ r. SumsBehind L.text (seen_in J.bounds r.1.events) replies.now r.0) }
    ensures knows { IfOk result (λ r. Begins seat.events r.1.events) }
{
    let _ = replies;
    let (total, seat) = read_total(seat, context)?;
    // For proofs: what it has seen is a run.
    let _ = seat.number();
    Ok((total, seat))
}

// What is to be played over so many regions.
#[derive(Drop)]
struct Lines<L: Source> {
    regions: usize,
    seeds: Vec<ScriptLine<L>>,
    sessions: Vec<Vec<SessionLine<L>>>,
}

/// What came of a script that was played. Each outcome among the answers was answered in what was
/// seen, of a transaction of its own.
#[derive(Drop)]
pub struct RunResult {
    /// The answer of each line that was reached.
    pub replies: Replies,
    /// Whether a fault of the script ended a session.
    pub faulted: bool,
    /// How far the sessions were whose last line was to draw, commit or abort and was out of order,
    /// each with the number of that line, in the order of the sessions. One for which there was no
    /// memory is left out.
    pub stages: Vec<(u64, SessionStage)>,
    /// How many write records were collected meanwhile, by collections that were not refused.
    pub collected: u64,
    /// How many lines are told each refusal, and how many what became of a lock.
    pub refusals: Refusals,
    /// What stood in the way of its sessions' requests, those of transfers too, which may go on.
    pub requests: Refusals,
    /// The sum of all balances at the end.
    pub total: u128,
    /// What all sessions had seen.
    pub seen: Unnamed,
}

// The store, what the seeds send with, and the seats of the sessions.
fn set_out<J: JournalId, F: Families + Drop, M: Makes<F>, R: Wait + Clone + Drop>(
    rt: &R,
    alloc: Global,
    make: &M,
    opened: Opened,
    regions: usize,
) -> Result<(Arc<Store<J, F>>, Context<J, F, R>, Seat<J>, Vec<Seat<J>>), Fault>
    requires name { (opened.table ≡ J.table) × (opened.bounds ≡ J.bounds) × (opened.seats ≡ J.seats) }
    requires count { regions ≡ length J.bounds + 1 }
    ensures seats { IfOk result (λ r. AreFrom (length J.bounds + 1) r.3.items) }
    ensures fresh { IfOk result (λ r. r.2 ≡ fresh r.2.seat) }
{
    let (store, mut seats) = open::<J, F, M>(alloc, make, opened, regions)?;
    let store = Arc::new(alloc, store)?;
    let Some((seat, resolver)) = two_seats(&mut seats) else {
        return Err(Fault::OutOfMemory);
    };
    let context = Context::new(alloc, rt.clone()?, store.clone()?, resolver);
    Ok((store, context, seat, seats))
}

// Adds the first line's reply, where it says the keys between regions.
fn write_regions<J: JournalId, L: Source>(
    replies: &mut Vec<LineReply>,
    regions: usize,
) -> Result<(), Broken>
    requires count { regions ≡ length J.bounds + 1 }
    requires none { replies.old.items ≡ [] }
    requires opens { OpensWith L.text J.bounds }
    ensures tells { OnOk result ((h : History) → All (TellsLine L.text J.bounds h) replies.new.items) }
    ensures quiet { OnOk result (All (λ s. IsReply s.answer) replies.new.items) }
    ensures each { OnOk result (numbers_of replies.new.items ≡ opening_of J.bounds) }
{
    if regions > 1 {
        replies.push(LineReply {
            number: 1,
            answer: LineAnswer::Plain(Ok(PlainReply::new(tx_reply::ScriptReply::Regions(regions)))),
        })?;
    }
    Ok(())
}

// What the first line and the seeds are told, in their order.
fn play_opening<J: JournalId, L: Source, F: Families + Drop, R: Wait + Drop>(
    alloc: Global,
    seat: Seat<J>,
    context: &mut Context<J, F, R>,
    regions: usize,
    seeds: &[ScriptLine<L>],
) -> Result<(Seat<J>, Replies), Broken>
    requires count { regions ≡ length J.bounds + 1 }
    requires opens { OpensWith L.text J.bounds }
    requires fresh { seat ≡ fresh seat.seat }
    ensures opened { IfOk result (λ r. IsOpened J.bounds L.text r.0.events r.1) }
    ensures tells { IfOk result (λ r. All (TellsLine L.text J.bounds r.0.events) r.1) }
    ensures quiet { IfOk result (λ r. All (λ s. IsReply s.answer) r.1) }
    ensures each { IfOk result
        (λ r. numbers_of r.1 ≡ opening_of J.bounds ++ map (λ seed. seed.number) seeds.now) }
{
    let mut first = Vec::with_capacity(alloc, seeds.len().saturating_add(1))?;
    write_regions::<J, L>(&mut first, regions)?;
    let seat = play_seeds(seat, context, seeds, &mut first)?;
    let mut replies = Replies::new(alloc);
    replies.add(first)?;
    Ok((seat, replies))
}

// Takes over what the sessions came to, and sums up.
fn close<J: JournalId, L: Source, F: Families + Drop, R: Wait + Drop>(
    mut seat: Seat<J>,
    context: &mut Context<J, F, R>,
    mut replies: Replies,
    outputs: Vec<JobOutput<J, L>>,
) -> Result<RunResult, Broken>
    requires falling { AreFalling outputs.items }
    requires none { All (λ s. IsReply s.answer) replies }
    requires tells { All (TellsLine L.text J.bounds seat.events) replies }
    requires opened { IsOpened J.bounds L.text seat.events replies }
    ensures told { IfOk result (λ played. TellsOutcomes played.seen.events played.replies) }
    ensures pairs { IfOk result (λ played. All (TellsPair L.text) played.replies) }
    ensures tells { IfOk result (λ played.
        All (TellsLine L.text played.seen.bounds played.seen.events) played.replies) }
    ensures bounds { IfOk result (λ played. played.seen.bounds ≡ J.bounds) }
    ensures gathered { IfOk result (λ played.
        AreGathered J.bounds L.text (numbers_of replies) played.seen.events played.replies outputs.items
        × (played.faulted ≡ list_any (λ o. o.faulted) outputs.items)) }
    ensures stages { IfOk result (λ played. IsSubsequence played.stages.items (stages_in outputs.items)) }
    ensures refusals { IfOk result (λ played. played.refusals ≡ refusals_in played.replies) }
    ensures total { IfOk result (λ played. TellsTotal played.seen played.replies played.total) }
    ensures sums { IfOk result (λ played. SumsBehind L.text played.seen played.replies played.total) }
{
    let collected = count_collected(outputs.as_slice());
    let requests = count_requests(outputs.as_slice());
    let stages = stages_of(context.alloc, outputs.as_slice());
    let faulted = gather(outputs, &mut seat, &mut replies)?;
    let (total, mut seat) = sum_up::<J, L, F, R>(seat, context, &replies)?;
    let told = seat.tell();
    let refusals = count_lines(&replies);
    Ok(RunResult {
        replies,
        faulted,
        stages,
        collected,
        refusals,
        requests,
        total,
        seen: told.unnamed(seat),
    })
}

// Plays the seeds and then the sessions, and sums up.
fn play<J, L, F, M, G, R>(
    rt: &R,
    alloc: Global,
    settings: Settings,
    make: &M,
    gate: &G,
    opened: Opened,
    script: Lines<L>,
) -> Result<RunResult, Broken>
where
    J: JournalId + Send + Sync,
    L: Source + Send,
    F: Families + Send + Drop,
    M: Makes<F>,
    G: Gate + Sync,
    R: Threads + Wait + Sync + Send + Clone + Drop,
    requires name { (opened.table ≡ J.table) × (opened.bounds ≡ J.bounds) × (opened.seats ≡ J.seats) }
    requires count { (script.regions ≡ length J.bounds + 1) × (script.regions ≤ 64) }
    requires few { vec_len script.sessions ≤ 256 }
    requires own { AreOwn L.text (numbers_in script.sessions.items) }
    requires opens { OpensWith L.text J.bounds }
    ensures told { IfOk result (λ played. TellsOutcomes played.seen.events played.replies) }
    ensures pairs { IfOk result (λ played. All (TellsPair L.text) played.replies) }
    ensures tells { IfOk result (λ played.
        All (TellsLine L.text played.seen.bounds played.seen.events) played.replies) }
    ensures bounds { IfOk result (λ played. played.seen.bounds ≡ J.bounds) }
    ensures comes { IfOk result (λ played.
        ComesOf J.bounds L.text (opening_of J.bounds ++ map (λ seed. seed.number) script.seeds.items)
        (numbers_in script.sessions.items) played.seen.events played.replies played.stages.items) }
    ensures faulted { IfOk result (λ played. played.faulted ≡ has_fault played.replies) }
    ensures refusals { IfOk result (λ played. played.refusals ≡ refusals_in played.replies) }
    ensures total { IfOk result (λ played. TellsTotal played.seen played.replies played.total) }
    ensures sums { IfOk result (λ played. SumsBehind L.text played.seen played.replies played.total) }
{
    let Lines {
        regions,
        seeds,
        sessions,
    } = script;
    let Ok((store, mut context, seat, seats)) = set_out::<J, F, M, R>(
        rt, alloc, make, opened, regions,
    ) else {
        return Err(Broken::Memory);
    };
    let (seat, replies) = play_opening(alloc, seat, &mut context, regions, seeds.as_slice())?;
    drop(seeds);
    let Ok(outputs) = work(rt, alloc, settings, gate, &store, seats, sessions) else {
        return Err(Broken::Memory);
    };
    close(seat, &mut context, replies, outputs)
}

/// Plays a script that was read, as is set: the seeds in the order of their lines, and then the
/// lines of each session in their order, the sessions side by side. Each outcome that a line is
/// told was answered in what was seen, and no two are of one transaction.
///
/// `Memory` where a growth was refused outside of a session's calls.
pub(crate) fn play_script<L, F, M, G, R>(
    rt: &R,
    alloc: Global,
    settings: Settings,
    make: &M,
    gate: &G,
    script: Script<L>,
) -> Result<RunResult, Broken>
where
    L: Source + Send,
    F: Families + Send + Drop,
    M: Makes<F>,
    G: Gate + Sync,
    R: Threads + Wait + Sync + Send + Clone + Drop,
    requires within { IsWithin script.bounds.items (vec_len script.sessions) }
    requires own { AreOwn L.text (numbers_in script.sessions.items) }
    requires opens { OpensWith L.text script.bounds.items }
    ensures told { IfOk result (λ played. TellsOutcomes played.seen.events played.replies) }
    ensures pairs { IfOk result (λ played. All (TellsPair L.text) played.replies) }
    ensures tells { IfOk result (λ played.
        All (TellsLine L.text played.seen.bounds played.seen.events) played.replies) }
    ensures bounds { IfOk result (λ played. played.seen.bounds ≡ script.bounds.items) }
    ensures comes { IfOk result (λ played.
        ComesOf script.bounds.items L.text
        (opening_of script.bounds.items ++ map (λ seed. seed.number) script.seeds.items)
        (numbers_in script.sessions.items) played.seen.events played.replies played.stages.items) }
    ensures faulted { IfOk result (λ played. played.faulted ≡ has_fault played.replies) }
    ensures refusals { IfOk result (λ played. played.refusals ≡ refusals_in played.replies) }
    ensures total { IfOk result (λ played. TellsTotal played.seen played.replies played.total) }
    ensures sums { IfOk result (λ played. SumsBehind L.text played.seen played.replies played.total) }
{
    let Script {
        bounds,
        seeds,
        sessions,
    } = script;
    let regions = bounds.len() + 1;
    let others = 2 * sessions.len() + 2;
    let opened = Opened::new(alloc, bounds, others).map_err(memory)?;
    play::<Brand, L, F, M, G, R>(
        rt,
        alloc,
        settings,
        make,
        gate,
        opened,
        Lines {
            regions,
            seeds,
            sessions,
        },
    )
}
