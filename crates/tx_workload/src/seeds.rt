//! The seeds of a run, in the order of their lines.
ghost use Rattle.std.specs.Prelude.{◌≡◌, ◌++◌, map, All, Ok, IfErr, IfOk, OnOk};
ghost use Rattle.tx_core.specs.Histories.{Begins};
ghost use Rattle.tx_workload.specs.Answers.{IsReply, numbers_of};
ghost use Rattle.tx_workload.specs.Logs.{answer_to};
ghost use Rattle.tx_workload.specs.PlayedSeeds.{AddsSeeds, PlaysSeed};
ghost use Rattle.tx_workload.specs.Tells.{TellsLine};
ghost use Rattle.tx_workload.specs.declared.reply.LineAnswer.TheVariants.{Plain};

use crate::reply::{LineAnswer, LineReply};
use crate::session_line::ScriptLine;
use std::sync::Wait;
use tx_cells::Families;
use tx_journal::{JournalId, Seat};
use tx_steps::{Line, Program, Step};
use tx_text::{Broken, Parts};
use tx_transfer::{Context, PlainReply, Source, reply_to, seed};

// Makes a seed's line: what it is told tells of what the seat then knows.
fn play<J: JournalId, L: Source, F: Families + Drop, R: Wait + Drop>(
    seat: Seat<J>,
    context: &mut Context<J, F, R>,
    script_line: &ScriptLine<L>,
) -> (Seat<J>, PlainReply)
    ensures tells { TellsLine L.text J.bounds result.0.events (answer_to script_line.now.number (Plain (Ok result.1))) }
    ensures plays { PlaysSeed J.bounds L.text seat (answer_to script_line.now.number (Plain (Ok result.1))) result.0 }
    ensures knows { Begins seat.events result.0.events }
{
    let mut parts = Parts::new();
    if let Ok(Ok(line)) = Line::read(
        context.alloc,
        script_line.number,
        script_line.text.as_slice(),
        &mut parts,
    ) {
        if let Some(Step::Seed(key, value)) = line.step(Program::Run) {
            let (seat, result) = seed(seat, context, key, value);
            return (seat, reply_to(result));
        }
    }
    (seat, PlainReply::new(tx_reply::ScriptReply::OutOfMemory))
}

/// Makes the seeds in the order of their lines, and keeps their answers. `Memory` where there is no
/// room for one.
pub fn play_seeds<J: JournalId, L: Source, F: Families + Drop, R: Wait + Drop>(
    mut seat: Seat<J>,
    context: &mut Context<J, F, R>,
    seeds: &[ScriptLine<L>],
    replies: &mut Vec<LineReply>,
) -> Result<Seat<J>, Broken>
    requires quiet { All (λ s. IsReply s.answer) replies.old.items }
    requires tells { All (TellsLine L.text J.bounds seat.events) replies.old.items }
    ensures tells { IfOk result (λ seat. All (TellsLine L.text J.bounds seat.events) replies.new.items) }
    ensures plays { IfOk result
        (λ after. AddsSeeds J.bounds L.text seat replies.old.items after replies.new.items) }
    ensures quiet { OnOk result (All (λ s. IsReply s.answer) replies.new.items) }
    ensures each { OnOk result
        (numbers_of replies.new.items ≡ numbers_of replies.old.items ++ map (λ line. line.number) seeds.now) }
    ensures err { IfErr result (λ e. e ≡ Broken.Memory) }
{
    for line in seeds {
        let (next, plain) = play(seat, context, line);
        seat = next;
        let reply = LineReply {
            number: line.number,
            answer: LineAnswer::Plain(Ok(plain)),
        };
        if replies.push(reply).is_err() {
            drop(seat);
            return Err(Broken::Memory);
        }
    }
    Ok(seat)
}
