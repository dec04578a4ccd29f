//! The texts that a script has: names, keys and values.
ghost use Rattle.std.specs.Prelude.{◌≡◌, ◌+◌, ◌%◌, ◌<◌, ◌++◌, replicate, OnOk, IsUtf8};
ghost use Rattle.tx_generate.specs.Words.{numbered, word_text};

use std::alloc::AllocError;
use tx_step_text::StepText;
use tx_text::{put_digits, put_string};
use tx_types::limits::MAX_VALUE_BYTES;

/// How many bytes a long value has behind its number: more than a record has room for.
const LONG_BYTES: usize = 300;

/// A name, a key or a value of a script.
#[derive(Clone, Copy, Debug, Drop, PartialEq, Eq)]
pub(crate) enum Word {
    /// The name of a session.
    Session(u64),
    /// The name of a held request.
    Held(u64),
    /// A key: a letter.
    Key(u8),
    /// One of more keys than there are letters.
    Many(u64),
    /// No bytes: no key.
    Empty,
    /// A short value, a long one, and one that is too long.
    Value(u64),
    Long(u64),
    TooLong(u64),
}

// The letter of this number.
pub(crate) fn letter(number: u8) -> u8
    ensures { result ≡ 97 + number % 26 }
{
    b'a' + number % 26
}

// Appends a letter and a number.
#[tactic(auto, using(crate::proofs::Words::numbered_utf8))]
fn put_numbered(out: &mut Vec<u8>, letter: u8, number: u64) -> Result<(), AllocError>
    ensures bytes { OnOk result (out.new.items ≡ out.old.items ++ numbered letter number) }
    ensures text { letter < 128 → IsUtf8 (numbered letter number) }
{
    out.push(letter)?;
    put_digits(out, number)
}

// Appends a long value, which begins with its number, with so many bytes behind that.
#[tactic(auto, using(crate::proofs::Words::long_utf8))]
fn put_long(out: &mut Vec<u8>, number: u64, more: usize) -> Result<(), AllocError>
    ensures bytes { OnOk result (out.new.items ≡ out.old.items ++ (numbered 108 number ++ replicate more 46)) }
    ensures text { IsUtf8 (numbered 108 number ++ replicate more 46) }
{
    put_numbered(out, b'l', number)?;
    match out.len().checked_add(more) {
        Some(len) => out.resize(len, b'.'),
        None => Err(AllocError),
    }
}

impl Word {
    // Appends the bytes of the text.
    fn put_bytes(self, out: &mut Vec<u8>) -> Result<(), AllocError>
        ensures bytes { OnOk result (out.new.items ≡ out.old.items ++ word_text self) }
        ensures text { IsUtf8 (word_text self) }
    {
        match self {
            Word::Session(number) => put_numbered(out, b'T', number),
            Word::Held(number) => put_numbered(out, b'h', number),
            Word::Key(number) => Ok(out.push(letter(number))?),
            Word::Value(number) => put_numbered(out, b'v', number),
            Word::Many(number) => put_numbered(out, b'k', number),
            Word::Empty => Ok(()),
            Word::Long(number) => put_long(out, number, LONG_BYTES),
            Word::TooLong(number) => put_long(out, number, MAX_VALUE_BYTES),
        }
    }
}

impl StepText for Word {
    ghost bytes = { word_text };

    fn put(&self, out: &mut Vec<u8>) -> Result<(), AllocError> {
        let mut text = Vec::new(out.allocator().clone()?);
        self.put_bytes(&mut text)?;
        put_string(out, text.as_slice())
    }
}
