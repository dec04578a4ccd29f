//! The line of a reply, in a buffer that keeps the number of the line before and counts it up.
ghost use Rattle.std.specs.Prelude.{◌≡◌, ◌+◌, ◌<◌, ◌^◌, ◌∷◌, ◌++◌, ℕ, List, Some, false, take, OnOk, IsTrue, IfOk, IfErr, IfSome, decimal};
ghost use Rattle.std.specs.Io.KnownBytes.{Appends};
ghost use Rattle.tx_text.specs.Faults.{fault_words};
ghost use Rattle.tx_text.specs.Members.{reply_text};
ghost use Rattle.tx_text.specs.Output.{BreaksText};
ghost use Rattle.tx_reply.specs.Replies.{reply_words};

use crate::reply::{REFUSAL_BYTES, ScriptReply, put_behind_number};
use std::alloc::{AllocError, Global};
use std::io::Write;
use std::marker::Model;
use tx_text::{Broken, put_digits, put_fault, send};
use tx_types::Cause;

/// The buffer in which the lines of replies are made. Between two of them it keeps a bracket and
/// the number of the last one, which is its view; none where it may hold something else.
#[derive(Drop)]
pub struct ReplyLine {
    text: Vec<u8>,
    number: Option<u64>,
}

impl Model for ReplyLine {
    ghost use Rattle.std.specs.Prelude.{◌≡◌, ◌∷◌, ℕ, Option, IfSome, decimal};

    ghost Value = { Option ℕ };

    ghost view = { λ p. p.number };

    ghost invariant = { λ p. IfSome p.number (λ n. p.text.items ≡ 91 ∷ decimal n) };
}

// Counts the number at the end of a text up by one, where only its last digit changes. False where
// it did not: the text is as it was.
fn count_up(text: &mut Vec<u8>) -> bool
    ensures up { IsTrue result → (front : List ℕ) (n : ℕ) → n + 1 < 2 ^ 64
        → text.old.items ≡ front ++ decimal n → text.new.items ≡ front ++ decimal (n + 1) }
    ensures same { result ≡ false → text.new.items ≡ text.old.items }
{
    let len = text.len();
    if len == 0 || text[len - 1] >= b'9' {
        return false;
    }
    text[len - 1] += 1;
    true
}

// Whether a number is the one after the last.
fn is_next(last: Option<u64>, number: u64) -> bool
    ensures { IsTrue result → (n : ℕ) × (last ≡ Some n) × (number ≡ n + 1) × (n + 1 < 2 ^ 64) }
{
    match last {
        Some(n) => n < number && number - n == 1,
        None => false,
    }
}

// Makes the text a bracket and this number, where it is none or those of the last one.
fn begin(text: &mut Vec<u8>, last: Option<u64>, number: u64) -> Result<(), AllocError>
    requires { IfSome last (λ n. text.old.items ≡ 91 ∷ decimal n) }
    ensures { OnOk result (text.new.items ≡ 91 ∷ decimal number) }
{
    if is_next(last, number) {
        if count_up(text) {
            return Ok(());
        }
    }
    text.clear();
    text.push(b'[')?;
    put_digits(text, number)
}

// Makes the text the line of a reply, and gives the length up to its number.
fn put_line(
    text: &mut Vec<u8>,
    last: Option<u64>,
    number: u64,
    reply: &ScriptReply,
) -> Result<usize, AllocError>
    requires { IfSome last (λ n. text.old.items ≡ 91 ∷ decimal n) }
    ensures text { OnOk result (text.new.items ≡ reply_text (number, reply_words reply.now)) }
    ensures front { IfOk result (λ len. take len text.new.items ≡ 91 ∷ decimal number) }
{
    begin(text, last, number)?;
    let len = text.len();
    put_behind_number(text, reply)?;
    Ok(len)
}

impl ReplyLine {
    /// An empty one, with room for the line of a refusal of memory.
    pub fn new(alloc: Global) -> Result<ReplyLine, AllocError> {
        Ok(ReplyLine {
            text: Vec::with_capacity(alloc, REFUSAL_BYTES)?,
            number: None,
        })
    }

    /// Writes the line of a reply, or the first few bytes of it before a failure.
    pub fn write_reply<W: Write>(
        &mut self,
        writer: &mut W,
        number: u64,
        reply: &ScriptReply,
    ) -> Result<(), Broken>
        ensures all { OnOk result (Appends (W.contents writer.old) (W.contents writer.new) (reply_text (
          number,
          reply_words reply.now,
        ))) }
        ensures part { IfErr result (λ e. BreaksText e (W.contents writer.old) (W.contents writer.new) (reply_text (
          number,
          reply_words reply.now,
        ))) }
    {
        let last = self.number.take();
        let len = put_line(&mut self.text, last, number, reply)?;
        send(writer, self.text.as_slice())?;
        self.text.truncate(len);
        self.number = Some(number);
        Ok(())
    }

    /// Writes the line of a fault, or the first few bytes of it before a failure.
    #[cold]
    #[inline(never)]
    pub fn write_fault<W: Write>(
        &mut self,
        writer: &mut W,
        number: u64,
        cause: Cause,
    ) -> Result<(), Broken>
        ensures all { OnOk result (Appends (W.contents writer.old) (W.contents writer.new) (reply_text (
          number,
          fault_words cause,
        ))) }
        ensures part { IfErr result (λ e. BreaksText e (W.contents writer.old) (W.contents writer.new) (reply_text (
          number,
          fault_words cause,
        ))) }
    {
        self.number = None;
        self.text.clear();
        put_fault(&mut self.text, number, cause)?;
        send(writer, self.text.as_slice())
    }
}
