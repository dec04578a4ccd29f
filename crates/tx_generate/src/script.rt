//! The lines of a script, one after another: each is tried, and kept where it is no fault.
ghost use Rattle.std.specs.Prelude.{◌≡◌, ◌+◌, ◌<◌, List, [], ◌∷◌, All, length, vec_len, IfOk, IfSome, IfNone, OnOk, IsTrue, IsFalse};
ghost use Rattle.tx_types.specs.declared.limits.TheConstants as limits;
ghost use Rattle.tx_cells.specs.Contents.{nothing_held};
ghost use Rattle.tx_text.specs.Lines.{NoNewline, lines_of};
ghost use Rattle.tx_evidence.specs.Lines.{bounds_of};
ghost use Rattle.tx_generate.specs.Scripts.{IsGrown, IsBegun, IsScript};

use crate::author::Author;
use crate::lines::{is_line, tick};
use std::alloc::Global;
use tx_cells::Families;
use tx_journal::{JournalId, Opened};
use tx_reply::ScriptReply;
use tx_script::Player;
use tx_step_text::put_step;
use tx_text::Broken;

/// How many thoughts are tried for a line, before a tick stands in for it.
const MAX_THOUGHTS: u64 = 5;

// Tries a line. Where it is no fault it is a line more of the text, and its reply is given.
fn try_line<J: JournalId, F: Families + Drop>(
    alloc: Global,
    player: &mut Player<J, F>,
    text: &mut Vec<u8>,
    line: &[u8],
) -> Result<Option<ScriptReply>, Broken>
    requires grown { IsGrown J.bounds text.old.items player.old }
    requires plain { NoNewline line.now }
    ensures grown { OnOk result (IsGrown J.bounds text.new.items player.new) }
    ensures first { IfOk result (λ reply. text.old.items ≡ [] → IfSome reply (λ _. lines_of text.new.items
        ≡ line.now ∷ [])) }
    ensures begun { OnOk result (IsBegun J.bounds text.old.items → IsBegun J.bounds text.new.items) }
    ensures more { IfOk result (λ reply. IfSome reply (λ _. length (lines_of text.new.items)
        ≡ length (lines_of text.old.items) + 1)) }
    ensures same { IfOk result (λ reply. IfNone reply (text.new.items ≡ text.old.items)) }
{
    match player.play(alloc, line)? {
        Ok(ScriptReply::OutOfMemory) => Err(Broken::Memory),
        Ok(reply) => {
            text.extend_from_slice(line)?;
            text.push(b'\n')?;
            Ok(Some(reply))
        }
        Err(_) => Ok(None),
    }
}

// Tries the author's next thought, where so many lines are left: whether it is a line more.
fn try_thought<J: JournalId, F: Families + Drop>(
    alloc: Global,
    player: &mut Player<J, F>,
    author: &mut Author,
    text: &mut Vec<u8>,
    left: u64,
) -> Result<bool, Broken>
    requires grown { IsGrown J.bounds text.old.items player.old }
    requires begun { IsBegun J.bounds text.old.items }
    ensures grown { OnOk result (IsGrown J.bounds text.new.items player.new) }
    ensures begun { OnOk result (IsBegun J.bounds text.new.items) }
    ensures more { IfOk result (λ went. IsTrue went → length (lines_of text.new.items)
        ≡ length (lines_of text.old.items) + 1) }
    ensures same { IfOk result (λ went. IsFalse went → text.new.items ≡ text.old.items) }
{
    let step = author.think(left);
    let mut line = Vec::new(alloc);
    put_step(&mut line, &step)?;
    if !is_line(line.as_slice()) {
        return Ok(false);
    }
    match try_line(alloc, player, text, line.as_slice())? {
        Some(reply) => {
            author.learn(&step, &reply)?;
            Ok(true)
        }
        None => Ok(false),
    }
}

// Adds a line to the text, where so many are left: whether there is one.
fn add_line<J: JournalId, F: Families + Drop>(
    alloc: Global,
    player: &mut Player<J, F>,
    author: &mut Author,
    text: &mut Vec<u8>,
    left: u64,
) -> Result<bool, Broken>
    requires grown { IsGrown J.bounds text.old.items player.old }
    requires begun { IsBegun J.bounds text.old.items }
    ensures grown { OnOk result (IsGrown J.bounds text.new.items player.new) }
    ensures begun { OnOk result (IsBegun J.bounds text.new.items) }
    ensures more { IfOk result (λ went. IsTrue went → length (lines_of text.new.items)
        ≡ length (lines_of text.old.items) + 1) }
{
    'tries: for _ in 0..MAX_THOUGHTS {
        if try_thought(alloc, player, author, text, left)? {
            return Ok(true);
        }
    }
    match try_line(alloc, player, text, tick())? {
        Some(reply) => {
            author.sees(&reply);
            Ok(true)
        }
        None => Ok(false),
    }
}

// Grows the text from its first line to so many lines: whether it has them.
fn grow<J: JournalId, F: Families + Drop>(
    alloc: Global,
    player: &mut Player<J, F>,
    author: &mut Author,
    text: &mut Vec<u8>,
    steps: u64,
) -> Result<bool, Broken>
    requires grown { IsGrown J.bounds text.old.items player.old }
    requires begun { IsBegun J.bounds text.old.items }
    requires one { length (lines_of text.old.items) ≡ 1 }
    requires some { 0 < steps }
    ensures grown { OnOk result (IsGrown J.bounds text.new.items player.new) }
    ensures begun { OnOk result (IsBegun J.bounds text.new.items) }
    ensures all { IfOk result (λ went. IsTrue went → length (lines_of text.new.items) ≡ steps) }
{
    'lines: for number in 1..steps {
        if !add_line(alloc, player, author, text, steps - number)? {
            return Ok(false);
        }
    }
    Ok(true)
}

/// The script of so many lines, over a journal that was opened over the keys that its first line
/// says. None where a line could not be had.
pub(crate) fn script_over<J: JournalId, F: Families + Drop>(
    alloc: Global,
    opened: Opened,
    families: Vec<F>,
    author: &mut Author,
    first: &[u8],
    steps: u64,
) -> Result<Option<Vec<u8>>, Broken>
    requires named { (opened.table ≡ J.table) × (opened.bounds ≡ J.bounds) × (opened.seats ≡ J.seats) }
    requires few { vec_len families ≡ length opened.bounds + 1 }
    requires seats { opened.seats ≡ length opened.bounds + 2 + limits.MAX_LIVE_SESSIONS }
    requires empty { All (λ f. F.content f ≡ (λ k. nothing_held)) families.items }
    requires says { opened.bounds ≡ bounds_of (first.now ∷ []) }
    requires some { 0 < steps }
    ensures { IfOk result (λ found. IfSome found (λ text. IsScript steps text.items)) }
{
    if !is_line(first) {
        return Ok(None);
    }
    let mut player = Player::<J, F>::new(alloc, opened, families)?;
    let mut text = Vec::new(alloc);
    let Some(reply) = try_line(alloc, &mut player, &mut text, first)? else {
        return Ok(None);
    };
    author.sees(&reply);
    if !grow(alloc, &mut player, author, &mut text, steps)? {
        return Ok(None);
    }
    player.end();
    Ok(Some(text))
}
