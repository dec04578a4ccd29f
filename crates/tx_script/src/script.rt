//! The lines of a script, one after another, and then the count that shows that nobody else acted.
ghost use Rattle.std.specs.Prelude.{◌≡◌, ◌≤◌, ◌+◌, ℕ, List, [], length, option_map, IfOk, IfErr, IfSome};
ghost use Rattle.tx_types.specs.declared.limits.TheConstants as limits;
ghost use Rattle.tx_core.specs.Worlds.{IsWorldRun};
ghost use Rattle.tx_engine.specs.Slots.{AllSeated, own};
ghost use Rattle.tx_engine.specs.Openings.{IsOpening};
ghost use Rattle.tx_network.specs.Networks.{IsTraced};
ghost use Rattle.tx_script.specs.Play.{EndsLines, BreaksLines};
ghost use Rattle.tx_script.specs.Checked.{EndsCheckedLines, BreaksCheckedLines};
ghost use Rattle.tx_script.specs.Numbered.{EndsNumberedLines, BreaksNumberedLines};
ghost use Rattle.tx_script.specs.Loops.{Ahead, BetweenLines, EndsAt, BreaksAt, NumberedAt};
ghost use Rattle.tx_script.specs.Stages.{NotesStage};

use crate::line::Turned;
use crate::line_numbers::{note_line, write_numbered};
use crate::next::play_next;
use crate::run_check::write_rest;
use std::alloc::Global;
use std::io::{BufRead, Write};
use tx_cells::Families;
use tx_engine::Engine;
use tx_journal::JournalId;
use tx_ops::SessionStage;
use tx_reply::ReplyLine;
use tx_text::{Broken, End, Found, finish};
use tx_trace::Trace;
use tx_types::limits::MAX_LINES;

// Plays the lines that come next, one after another: the first is in `line`, as it was found. Where
// that is asked, notes of each step that is kept the number of its line; and of a fault in `stage`
// how far its session is, where that is why.
fn play_lines<J: JournalId, F: Families, R: BufRead, W: Write>(
    alloc: Global,
    engine: &mut Engine<J, F>,
    reader: &mut R,
    writer: &mut W,
    first: Found,
    line: &mut Vec<u8>,
    numbers: &mut Option<Vec<u64>>,
    stage: &mut Option<SessionStage>,
) -> Result<End, Broken>
    requires opening { IsOpening engine.old }
    requires slots { length engine.old.slots ≡ limits.MAX_LIVE_SESSIONS }
    requires ready { AllSeated J.bounds (limits.MAX_LINES + 1) engine.old }
    requires none { IfSome (option_map (λ v. v.items) numbers.old) (λ ns. ns ≡ []) }
    ensures kept { BetweenLines J.bounds engine.new }
    ensures traced { length engine.new.network.newest ≤ own engine.new → IsTraced engine.old.network
        → IsTraced engine.new.network }
    ensures ends { IfOk result (λ end. length engine.new.network.newest ≤ own engine.new → (lines : List (List ℕ))
        → Ahead first line.old.items (R.remaining reader.old) lines
        → EndsAt J.bounds lines engine.new.network.newest (W.contents writer.old) (W.contents writer.new) end) }
    ensures breaks { IfErr result (λ why. length engine.new.network.newest ≤ own engine.new → (lines : List (List ℕ))
        → Ahead first line.old.items (R.remaining reader.old) lines
        → BreaksAt J.bounds lines why engine.new.network.newest (W.contents writer.old) (W.contents writer.new)) }
    ensures staged { IfOk result (λ _. length engine.new.network.newest ≤ own engine.new
        → (lines : List (List ℕ)) → Ahead first line.old.items (R.remaining reader.old) lines
        → NotesStage J.bounds lines stage.new) }
    ensures numbered { IfOk result (λ end. end ≡ End.Well → length engine.new.network.newest ≤ own engine.new
        → IsWorldRun J.bounds engine.new.network.newest → IsTraced engine.old.network → (lines : List (List ℕ))
        → Ahead first line.old.items (R.remaining reader.old) lines
        → IfSome (option_map (λ v. v.items) numbers.new) (λ ns. NumberedAt J.bounds lines ns
        engine.new.network.newest (W.contents writer.old) (W.contents writer.new))) }
{
    let mut replies = ReplyLine::new(alloc)?;
    let mut number = 0;
    let mut found = Some(first);
    'lines: loop {
        match play_next(alloc, engine, number + 1, found, reader, line, stage)? {
            Turned::End => {
                finish(writer)?;
                return Ok(End::Well);
            }
            Turned::Goes(reply) => {
                number += 1;
                note_line(numbers, number, engine.count_steps());
                replies.write_reply(writer, number, &reply)?;
            }
            Turned::Stops(cause) => {
                replies.write_fault(writer, number + 1, cause)?;
                finish(writer)?;
                return Ok(End::Faulted);
            }
        }
        found = None;
    }
}

/// Ends the play: nobody else acted, so that what is newest is no more than was made here, and a
/// run of the protocol. The machine's steps of it, where they were kept.
pub(crate) fn close<J: JournalId, F: Families + Drop>(engine: Engine<J, F>) -> Option<Trace>
    requires kept { BetweenLines J.bounds engine }
    requires seats { J.seats ≡ length J.bounds + 2 + limits.MAX_LIVE_SESSIONS }
    ensures came { length engine.network.newest ≤ own engine }
    ensures run { IsWorldRun J.bounds engine.network.newest }
    ensures trace { result ≡ engine.network.trace }
{
    let mut engine = engine;
    let trace = engine.take_trace();
    let told = engine.settle();
    told.show();
    trace
}

/// Plays the lines that come next in one thread, the first of which is in `line`, as it was found.
/// What it has then written is the text of the only play of the lines, whose history is a run of
/// the protocol; broken off, it has written a beginning of the text of the first lines. Where a
/// session may not draw, commit or abort, `stage` notes how far it is.
pub(crate) fn simulate_over<J: JournalId, F: Families + Drop, R: BufRead, W: Write>(
    alloc: Global,
    engine: Engine<J, F>,
    reader: &mut R,
    writer: &mut W,
    first: Found,
    line: &mut Vec<u8>,
    stage: &mut Option<SessionStage>,
) -> Result<End, Broken>
    requires opening { IsOpening engine }
    requires slots { length engine.slots ≡ limits.MAX_LIVE_SESSIONS }
    requires ready { AllSeated J.bounds (limits.MAX_LINES + 1) engine }
    requires seats { J.seats ≡ length J.bounds + 2 + limits.MAX_LIVE_SESSIONS }
    ensures ends { IfOk result (λ end. (lines : List (List ℕ))
        → Ahead first line.old.items (R.remaining reader.old) lines
        → EndsLines J.bounds lines (W.contents writer.old) (W.contents writer.new) end) }
    ensures staged { IfOk result (λ _. (lines : List (List ℕ))
        → Ahead first line.old.items (R.remaining reader.old) lines → NotesStage J.bounds lines stage.new) }
    ensures breaks { IfErr result (λ why. (lines : List (List ℕ))
        → Ahead first line.old.items (R.remaining reader.old) lines
        → BreaksLines J.bounds why lines (W.contents writer.old) (W.contents writer.new)) }
{
    let mut engine = engine;
    let mut numbers = None;
    let end = play_lines(
        alloc,
        &mut engine,
        reader,
        writer,
        first,
        line,
        &mut numbers,
        stage,
    );
    drop(close(engine));
    end
}

/// Plays such lines with a check: where the script ended well, the machine's steps of its run
/// follow its replies, and that they are a run.
pub(crate) fn check_over<J: JournalId, F: Families + Drop, R: BufRead, W: Write>(
    alloc: Global,
    engine: Engine<J, F>,
    reader: &mut R,
    writer: &mut W,
    first: Found,
    line: &mut Vec<u8>,
    stage: &mut Option<SessionStage>,
) -> Result<End, Broken>
    requires opening { IsOpening engine }
    requires slots { length engine.slots ≡ limits.MAX_LIVE_SESSIONS }
    requires ready { AllSeated J.bounds (limits.MAX_LINES + 1) engine }
    requires seats { J.seats ≡ length J.bounds + 2 + limits.MAX_LIVE_SESSIONS }
    ensures ends { IfOk result (λ end. (lines : List (List ℕ))
        → Ahead first line.old.items (R.remaining reader.old) lines
        → EndsCheckedLines J.bounds lines (W.contents writer.old) (W.contents writer.new) end) }
    ensures staged { IfOk result (λ _. (lines : List (List ℕ))
        → Ahead first line.old.items (R.remaining reader.old) lines → NotesStage J.bounds lines stage.new) }
    ensures breaks { IfErr result (λ why. (lines : List (List ℕ))
        → Ahead first line.old.items (R.remaining reader.old) lines
        → BreaksCheckedLines J.bounds why lines (W.contents writer.old) (W.contents writer.new)) }
{
    let mut engine = engine;
    engine.keep_trace();
    let mut numbers = None;
    let ended = play_lines(
        alloc,
        &mut engine,
        reader,
        writer,
        first,
        line,
        &mut numbers,
        stage,
    );
    let trace = close(engine);
    let end = ended?;
    write_rest(alloc, writer, end, trace)?;
    Ok(end)
}

/// The same, each step beside the number of the line during which it was taken.
pub(crate) fn number_over<J: JournalId, F: Families + Drop, R: BufRead, W: Write>(
    alloc: Global,
    engine: Engine<J, F>,
    reader: &mut R,
    writer: &mut W,
    first: Found,
    line: &mut Vec<u8>,
    stage: &mut Option<SessionStage>,
) -> Result<End, Broken>
    requires opening { IsOpening engine }
    requires slots { length engine.slots ≡ limits.MAX_LIVE_SESSIONS }
    requires ready { AllSeated J.bounds (limits.MAX_LINES + 1) engine }
    requires seats { J.seats ≡ length J.bounds + 2 + limits.MAX_LIVE_SESSIONS }
    ensures ends { IfOk result (λ end. (lines : List (List ℕ))
        → Ahead first line.old.items (R.remaining reader.old) lines
        → EndsNumberedLines J.bounds lines (W.contents writer.old) (W.contents writer.new) end) }
    ensures staged { IfOk result (λ _. (lines : List (List ℕ))
        → Ahead first line.old.items (R.remaining reader.old) lines → NotesStage J.bounds lines stage.new) }
    ensures breaks { IfErr result (λ why. (lines : List (List ℕ))
        → Ahead first line.old.items (R.remaining reader.old) lines
        → BreaksNumberedLines J.bounds why lines (W.contents writer.old) (W.contents writer.new)) }
{
    let mut engine = engine;
    engine.keep_trace();
    let mut numbers = Some(Vec::new(alloc));
    let ended = play_lines(
        alloc,
        &mut engine,
        reader,
        writer,
        first,
        line,
        &mut numbers,
        stage,
    );
    let trace = close(engine);
    let end = ended?;
    write_numbered(alloc, writer, end, trace, numbers)?;
    Ok(end)
}
