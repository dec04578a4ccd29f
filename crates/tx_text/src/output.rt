//! Writing, by a loop over `write`, so that what was written before a failure is known.
ghost use Rattle.std.specs.Prelude.{◌≡◌, OnOk, OnErr, IfErr};
ghost use Rattle.std.specs.Io.KnownBytes.{Appends, Keeps};
ghost use Rattle.tx_text.specs.Output.{AppendsPart};

use crate::Broken;
use std::io::{ErrorKind, Write};

// Writes what a first write has left, one write after another.
#[cold]
#[inline(never)]
fn send_rest<W: Write>(writer: &mut W, bytes: &[u8]) -> Result<(), Broken>
    ensures all { OnOk result (Appends (W.contents writer.old) (W.contents writer.new) bytes.now) }
    ensures part { OnErr result (AppendsPart (W.contents writer.old) (W.contents writer.new) bytes.now) }
    ensures err { IfErr result (λ e. e ≡ Broken.Output) }
{
    let mut sent = 0;
    'writes: for _ in 0..u64::MAX {
        if sent >= bytes.len() {
            return Ok(());
        }
        match writer.write(&bytes[sent..]) {
            Ok(0) => return Err(Broken::Output),
            Ok(n) => sent += n,
            Err(e) => {
                if e.kind() != ErrorKind::Interrupted {
                    return Err(Broken::Output);
                }
            }
        }
    }
    Err(Broken::Output)
}

/// Writes all of the bytes, or the first few of them before a failure, which is `Output`. Mostly
/// one write takes them all.
#[inline(always)]
pub fn send<W: Write>(writer: &mut W, bytes: &[u8]) -> Result<(), Broken>
    ensures all { OnOk result (Appends (W.contents writer.old) (W.contents writer.new) bytes.now) }
    ensures part { OnErr result (AppendsPart (W.contents writer.old) (W.contents writer.new) bytes.now) }
    ensures err { IfErr result (λ e. e ≡ Broken.Output) }
{
    match writer.write(bytes) {
        Ok(n) if n == bytes.len() => Ok(()),
        Ok(0) => Err(Broken::Output),
        Ok(n) => send_rest(writer, &bytes[n..]),
        Err(e) => {
            if e.kind() != ErrorKind::Interrupted {
                return Err(Broken::Output);
            }
            send_rest(writer, bytes)
        }
    }
}

/// Hands on what the writer still holds back. `Output` where that failed.
pub fn finish<W: Write>(writer: &mut W) -> Result<(), Broken>
    ensures kept { Keeps (W.contents writer.old) (W.contents writer.new) }
    ensures err { IfErr result (λ e. e ≡ Broken.Output) }
{
    match writer.flush() {
        Ok(()) => Ok(()),
        Err(_) => Err(Broken::Output),
    }
}
