//! A script from its first byte to its last.
ghost use Rattle.std.specs.Prelude.{◌≡◌, ◌<◌, ◌≤◌, ◌+◌, ℕ, List, [], ◌∷◌, All, length, vec_len, IfOk, IfErr, IfSome};
ghost use Rattle.tx_types.specs.declared.limits.TheConstants as limits;
ghost use Rattle.tx_cells.specs.Contents.{nothing_held};
ghost use Rattle.tx_types.specs.Keys.{AreRising};
ghost use Rattle.tx_text.specs.Lines.{lines_of};
ghost use Rattle.tx_engine.specs.Slots.{AllSeated};
ghost use Rattle.tx_engine.specs.Openings.{IsOpening};
ghost use Rattle.tx_evidence.specs.Lines.{bounds_of};
ghost use Rattle.tx_script.specs.Play.{EndsScript, BreaksScript};
ghost use Rattle.tx_script.specs.Checked.{EndsChecked, BreaksChecked};
ghost use Rattle.tx_script.specs.Numbered.{EndsNumbered, BreaksNumbered};
ghost use Rattle.tx_script.specs.Loops.{Ahead, first_bounds, EndsAsked, BreaksAsked};
ghost use Rattle.tx_script.specs.Stages.{NotesStage};

use crate::asked::Asked;
use crate::script::{check_over, number_over, simulate_over};
use std::alloc::Global;
use std::io::{BufRead, Write};
use std::marker::Brand;
use tx_cells::{Families, Makes, make_families};
use tx_engine::{Engine, engine_of};
use tx_journal::{JournalId, Opened};
use tx_ops::SessionStage;
use tx_steps::Line;
use tx_text::{Broken, End, Found, Parts, read_line};
use tx_types::Key;
use tx_types::limits::MAX_LIVE_SESSIONS;

/// The keys between the regions of a script with this first line, which has no newline: it says
/// them, or there is one region. `Memory` where a growth was refused.
pub fn bounds_in(alloc: Global, line: &[u8]) -> Result<Vec<Key>, Broken>
    ensures bounds { IfOk result (λ bounds. bounds.items ≡ bounds_of (line.now ∷ [])) }
    ensures rising { IfOk result (λ bounds. AreRising bounds.items) }
    ensures few { IfOk result (λ bounds. length bounds.items < limits.MAX_REGIONS) }
    ensures err { IfErr result (λ why. why ≡ Broken.Memory) }
{
    let mut parts = Parts::new();
    match Line::read(alloc, 1, line, &mut parts)? {
        Ok(said) => match said.bounds(alloc) {
            Ok(Some(bounds)) => Ok(bounds),
            Ok(None) => Ok(Vec::new(alloc)),
            Err(_) => Err(Broken::Memory),
        },
        Err(_) => Ok(Vec::new(alloc)),
    }
}

// The keys between the regions, by what was found of line 1.
fn bounds_at(alloc: Global, first: Found, line: &[u8]) -> Result<Vec<Key>, Broken>
    ensures bounds { IfOk result (λ bounds. bounds.items ≡ first_bounds first line.now) }
    ensures rising { IfOk result (λ bounds. AreRising bounds.items) }
    ensures few { IfOk result (λ bounds. length bounds.items < limits.MAX_REGIONS) }
{
    match first {
        Found::Line => bounds_in(alloc, line),
        Found::Long | Found::End => Ok(Vec::new(alloc)),
    }
}

/// An engine over a journal that was opened, and has no other user.
pub(crate) fn engine_over<J: JournalId, F: Families + Drop>(
    alloc: Global,
    opened: Opened,
    families: Vec<F>,
) -> Result<Engine<J, F>, Broken>
    requires named { (opened.table ≡ J.table) × (opened.bounds ≡ J.bounds) × (opened.seats ≡ J.seats) }
    requires few { vec_len families ≡ length opened.bounds + 1 }
    requires seats { opened.seats ≡ length opened.bounds + 2 + limits.MAX_LIVE_SESSIONS }
    requires empty { All (λ f. F.content f ≡ (λ k. nothing_held)) families.items }
    ensures opening { IfOk result IsOpening }
    ensures slots { IfOk result (λ e. length e.slots ≡ limits.MAX_LIVE_SESSIONS) }
    ensures ready { IfOk result (λ e. (n : ℕ) → n ≤ 4294967296 → AllSeated J.bounds n e) }
    ensures seats { IfOk result (λ _. J.seats ≡ length J.bounds + 2 + limits.MAX_LIVE_SESSIONS) }
    ensures err { IfErr result (λ why. why ≡ Broken.Memory) }
{
    let Ok((journal, seats)) = opened.named::<J>(alloc) else {
        return Err(Broken::Memory);
    };
    let Ok(engine) = engine_of(alloc, journal, seats, families) else {
        return Err(Broken::Memory);
    };
    Ok(engine)
}

// Plays a script over a journal that was opened, and has no other user, and writes what is asked.
fn over<J: JournalId, F: Families + Drop, R: BufRead, W: Write>(
    alloc: Global,
    opened: Opened,
    families: Vec<F>,
    reader: &mut R,
    writer: &mut W,
    first: Found,
    line: &mut Vec<u8>,
    asked: Asked,
    stage: &mut Option<SessionStage>,
) -> Result<End, Broken>
    requires named { (opened.table ≡ J.table) × (opened.bounds ≡ J.bounds) × (opened.seats ≡ J.seats) }
    requires few { vec_len families ≡ length opened.bounds + 1 }
    requires seats { opened.seats ≡ length opened.bounds + 2 + limits.MAX_LIVE_SESSIONS }
    requires empty { All (λ f. F.content f ≡ (λ k. nothing_held)) families.items }
    ensures ends { IfOk result (λ end. (lines : List (List ℕ))
        → Ahead first line.old.items (R.remaining reader.old) lines
        → EndsAsked asked opened.bounds lines (W.contents writer.old) (W.contents writer.new) end) }
    ensures staged { IfOk result (λ _. (lines : List (List ℕ))
        → Ahead first line.old.items (R.remaining reader.old) lines → NotesStage opened.bounds lines stage.new) }
    ensures breaks { IfErr result (λ why. (lines : List (List ℕ))
        → Ahead first line.old.items (R.remaining reader.old) lines
        → BreaksAsked asked opened.bounds why lines (W.contents writer.old) (W.contents writer.new)) }
{
    let engine = engine_over::<J, F>(alloc, opened, families)?;
    match asked {
        Asked::Replies => simulate_over(alloc, engine, reader, writer, first, line, stage),
        Asked::Steps => check_over(alloc, engine, reader, writer, first, line, stage),
        Asked::NumberedSteps => number_over(alloc, engine, reader, writer, first, line, stage),
    }
}

// Plays a script, and writes what is asked.
fn play<F: Families + Drop, M: Makes<F>, R: BufRead, W: Write>(
    alloc: Global,
    make: &M,
    reader: &mut R,
    writer: &mut W,
    asked: Asked,
    stage: &mut Option<SessionStage>,
) -> Result<End, Broken>
    ensures ends { IfOk result (λ end. IfSome (R.remaining reader.old)
        (λ input. EndsAsked asked (bounds_of (lines_of input)) (lines_of input) (W.contents writer.old)
        (W.contents writer.new) end)) }
    ensures staged { IfOk result (λ _. IfSome (R.remaining reader.old)
        (λ input. NotesStage (bounds_of (lines_of input)) (lines_of input) stage.new)) }
    ensures breaks { IfErr result (λ why. IfSome (R.remaining reader.old)
        (λ input. BreaksAsked asked (bounds_of (lines_of input)) why (lines_of input) (W.contents writer.old)
        (W.contents writer.new))) }
{
    let mut line = Vec::new(alloc);
    let first = read_line(reader, &mut line)?;
    let bounds = bounds_at(alloc, first, line.as_slice())?;
    let Ok(families) = make_families(alloc, make, bounds.len() + 1) else {
        return Err(Broken::Memory);
    };
    let Ok(opened) = Opened::new(alloc, bounds, MAX_LIVE_SESSIONS + 1) else {
        return Err(Broken::Memory);
    };
    over::<Brand, F, R, W>(
        alloc, opened, families, reader, writer, first, &mut line, asked, stage,
    )
}

/// Plays a script, in one thread: reads its steps line by line, and writes one reply line a step.
/// Line 1 may say the keys between its regions; else there is one region. `make` gives each region
/// its families. At most 256 sessions live at once. It ends well at the end of the input, and
/// `Faulted` at the first line that is no step or that the script does not allow, whose reply names
/// the cause. Where that line is a draw, a commit or an abort that its session may not make,
/// `stage` then says how far that session is, which is why; else, and where memory to find that out
/// was refused, it says nothing. Broken off, it has no meaning.
///
/// `Input` where a read failed, `Output` where a write or the flush failed, `Memory` where a growth
/// was refused outside of a step's own calls, for which the reply is E12.
pub fn simulate<F: Families + Drop, M: Makes<F>, R: BufRead, W: Write>(
    alloc: Global,
    make: &M,
    reader: &mut R,
    writer: &mut W,
    stage: &mut Option<SessionStage>,
) -> Result<End, Broken>
    // Not broken off, it has written the replies of what the script means, and nothing else.
    ensures ends { IfOk result (λ end. IfSome (R.remaining reader.old)
        (λ input. EndsScript input (W.contents writer.old) (W.contents writer.new) end)) }
    // What it then says in `stage` is so where the script stopped, at a step out of order.
    ensures staged { IfOk result (λ _. IfSome (R.remaining reader.old)
        (λ input. NotesStage (bounds_of (lines_of input)) (lines_of input) stage.new)) }
    // Broken off, it has written a beginning of them: whole replies, unless a write failed.
    ensures breaks { IfErr result (λ why. IfSome (R.remaining reader.old)
        (λ input. BreaksScript why input (W.contents writer.old) (W.contents writer.new))) }
{
    play::<F, M, R, W>(alloc, make, reader, writer, Asked::Replies, stage)
}

/// Plays a script as `simulate` does, and checks it: where it ended well, the steps of the machine
/// that commits each transaction in one step follow its replies, a line each, in the order in which
/// they happened in its run; and then a line says that they are a run of the machine, as the
/// machine's checker finds.
///
/// It is broken off as `simulate` is, with `Memory` also where the steps could not be kept or
/// checked for want of it.
pub fn simulate_checked<F: Families + Drop, M: Makes<F>, R: BufRead, W: Write>(
    alloc: Global,
    make: &M,
    reader: &mut R,
    writer: &mut W,
    stage: &mut Option<SessionStage>,
) -> Result<End, Broken>
    // Not broken off, it has written the replies of what the script means, where it ended well the
    // machine's steps, and nothing else.
    ensures ends { IfOk result (λ end. IfSome (R.remaining reader.old)
        (λ input. EndsChecked input (W.contents writer.old) (W.contents writer.new) end)) }
    // What it then says in `stage` is so where the script stopped.
    ensures staged { IfOk result (λ _. IfSome (R.remaining reader.old)
        (λ input. NotesStage (bounds_of (lines_of input)) (lines_of input) stage.new)) }
    // Broken off, it has written a beginning of that: whole lines, unless a write failed.
    ensures breaks { IfErr result (λ why. IfSome (R.remaining reader.old)
        (λ input. BreaksChecked why input (W.contents writer.old) (W.contents writer.new))) }
{
    play::<F, M, R, W>(alloc, make, reader, writer, Asked::Steps, stage)
}

/// Plays a script as `simulate_checked` does, and writes each of the machine's steps beside the
/// number of the line during which it was taken.
///
/// It is broken off as `simulate_checked` is, with `Memory` also where the numbers could not be
/// kept for want of it.
pub fn simulate_numbered<F: Families + Drop, M: Makes<F>, R: BufRead, W: Write>(
    alloc: Global,
    make: &M,
    reader: &mut R,
    writer: &mut W,
    stage: &mut Option<SessionStage>,
) -> Result<End, Broken>
    // Not broken off, it has written the replies of what the script means, where it ended well the
    // same steps in the same order as `simulate_checked`, each beside the number of its line, and
    // nothing else.
    ensures ends { IfOk result (λ end. IfSome (R.remaining reader.old)
        (λ input. EndsNumbered input (W.contents writer.old) (W.contents writer.new) end)) }
    // What it then says in `stage` is so where the script stopped.
    ensures staged { IfOk result (λ _. IfSome (R.remaining reader.old)
        (λ input. NotesStage (bounds_of (lines_of input)) (lines_of input) stage.new)) }
    // Broken off, it has written a beginning of that: whole lines, unless a write failed.
    ensures breaks { IfErr result (λ why. IfSome (R.remaining reader.old)
        (λ input. BreaksNumbered why input (W.contents writer.old) (W.contents writer.new))) }
{
    play::<F, M, R, W>(alloc, make, reader, writer, Asked::NumberedSteps, stage)
}
