//! Writing what was played.
ghost use Rattle.std.specs.Prelude.{◌≡◌, ◌≢◌, ◌++◌, map, All, IfErr, IfOk, OnOk, OnErr};
ghost use Rattle.std.specs.List.{flat_map};
ghost use Rattle.std.specs.Io.KnownBytes.{Appends};
ghost use Rattle.tx_text.specs.Faults.{fault_words};
ghost use Rattle.tx_text.specs.Output.{AppendsPart};
ghost use Rattle.tx_text.specs.Members.{reply_text};
ghost use Rattle.tx_workload.specs.Lines.{line_of};
ghost use Rattle.tx_workload.specs.Texts.{AreInOrder, IsTextOf, WritesText, WritesPart, outcomes_text, total_text};

use crate::counts::{RunCounts, counts_of, put_outcomes, put_total};
use crate::replies::Replies;
use crate::reply::{LineReply, put_line};
use std::alloc::{AllocError, Global};
use std::io::Write;
use tx_text::{Broken, finish, put_fault, send};
use tx_types::Cause;

// Adds these answers, each with the number of its line.
fn enter<'a>(
    lines: &mut Vec<(u64, &'a LineReply)>,
    replies: &'a [LineReply],
) -> Result<(), AllocError>
    requires { All (λ line. line.0 ≡ line.1.now.number) lines.old.items }
    ensures numbers { OnOk result (All (λ line. line.0 ≡ line.1.now.number) lines.new.items) }
    ensures lines { OnOk result
        (map (λ line. line.1.now) lines.new.items ≡ map (λ line. line.1.now) lines.old.items ++ replies.now) }
{
    for reply in replies {
        lines.push((reply.number, reply))?;
    }
    Ok(())
}

// The answers in the order of their lines.
fn in_order(alloc: Global, replies: &Replies) -> Result<Vec<(u64, &LineReply)>, AllocError>
    ensures { IfOk result (λ lines. AreInOrder replies.now (map (λ line. line.1.now) lines.items)) }
{
    let mut lines = Vec::new(alloc);
    for part in replies.parts() {
        enter(&mut lines, part.as_slice())?;
    }
    lines.sort_by_key(|line| line.0)?;
    Ok(lines)
}

// Writes the lines of these answers.
fn write_lines<W: Write>(
    alloc: Global,
    writer: &mut W,
    lines: &[(u64, &LineReply)],
) -> Result<(), Broken>
    ensures all { OnOk result
        (Appends (W.contents writer.old) (W.contents writer.new)
        (flat_map line_of (map (λ line. line.1.now) lines.now))) }
    ensures part { OnErr result
        (AppendsPart (W.contents writer.old) (W.contents writer.new)
        (flat_map line_of (map (λ line. line.1.now) lines.now))) }
    ensures err { IfErr result (λ e. e ≢ Broken.Input) }
{
    let mut text = Vec::new(alloc);
    'lines: for (_, reply) in lines {
        text.clear();
        put_line(&mut text, reply)?;
        send(writer, text.as_slice())?;
    }
    Ok(())
}

// Writes the two lines of sums, and hands on what the writer holds back.
fn write_sums<W: Write>(
    alloc: Global,
    writer: &mut W,
    counts: RunCounts,
    total: u128,
) -> Result<(), Broken>
    ensures all { OnOk result
        (Appends (W.contents writer.old) (W.contents writer.new) (outcomes_text counts ++ total_text total)) }
    ensures part { OnErr result
        (AppendsPart (W.contents writer.old) (W.contents writer.new) (outcomes_text counts ++ total_text total)) }
    ensures err { IfErr result (λ e. e ≢ Broken.Input) }
{
    let mut text = Vec::new(alloc);
    put_outcomes(&mut text, counts)?;
    put_total(&mut text, total)?;
    send(writer, text.as_slice())?;
    finish(writer)
}

/// Writes the answers in the order of their lines, then the counts of the outcomes, and the sum
/// of all balances. It fails by its writer or for want of memory, never by `Input`.
pub fn write_all<W: Write>(
    alloc: Global,
    writer: &mut W,
    replies: &Replies,
    total: u128,
) -> Result<(), Broken>
    ensures all { OnOk result
        (WritesText (W.contents writer.old) (W.contents writer.new) (IsTextOf replies.now total)) }
    ensures part { OnErr result
        (WritesPart (W.contents writer.old) (W.contents writer.new) (IsTextOf replies.now total)) }
    ensures err { IfErr result (λ e. e ≢ Broken.Input) }
{
    let lines = in_order(alloc, replies)?;
    write_lines(alloc, writer, lines.as_slice())?;
    write_sums(alloc, writer, counts_of(lines.as_slice()), total)
}

/// Writes the fault of a script that was not played. It fails as `write_all` does.
pub fn write_fault<W: Write>(
    alloc: Global,
    writer: &mut W,
    number: u64,
    cause: Cause,
) -> Result<(), Broken>
    ensures all { OnOk result
        (Appends (W.contents writer.old) (W.contents writer.new) (reply_text (number, fault_words cause))) }
    ensures part { OnErr result
        (AppendsPart (W.contents writer.old) (W.contents writer.new) (reply_text (number, fault_words cause))) }
    ensures err { IfErr result (λ e. e ≢ Broken.Input) }
{
    let mut text = Vec::new(alloc);
    put_fault(&mut text, number, cause)?;
    send(writer, text.as_slice())?;
    finish(writer)
}
