//! A script that is typed at a terminal: a line that is a fault is told, and the next one is read
//! in its place.
ghost use Rattle.std.specs.Prelude.{◌≡◌, ◌+◌, All, vec_len, length};
ghost use Rattle.tx_types.specs.declared.limits.TheConstants as limits;
ghost use Rattle.tx_cells.specs.Contents.{nothing_held};
ghost use Rattle.tx_script.specs.Players.{IsPlayer};

use crate::answers::Answers;
use crate::files::{read_file, write_file};
use crate::notes::{tell_fault, tell_undeclared};
use crate::questions::{Asked, answer_question, asked_of};
use std::io::{BufRead, Write};
use std::marker::Brand;
use std::mem;
use tx_cells::{Families, Fresh};
use tx_journal::{JournalId, Opened};
use tx_line_store::journal;
use tx_reply::put_reply;
use tx_script::{Broken, End, Player, SessionStage};
use tx_sentences::{is_shorthand, step_typed};
use tx_streams::first_lines;
use tx_text::{Found, finish, put_fault, read_line, send};
use tx_types::Cause;

// What was typed at last.
#[derive(Clone, Copy, Debug, PartialEq, Eq)]
enum Typed {
    /// A line that is to be a step.
    Step,
    /// A line that is too long, of which what is left is not read.
    Long,
    /// The last line that went well is to be taken back.
    Undo,
    End,
}

// What is typed, and what is shown.
#[derive(Drop)]
struct Terminal<'a, I, O, A> {
    host: HostRuntime,
    // What answers questions on the run.
    answers: &'a A,
    reader: &'a mut I,
    writer: &'a mut O,
    // The line that was typed last.
    line: Vec<u8>,
    // The lines that went well.
    script: Vec<u8>,
    // Lines that are played before the next is read: those of a file, or those that are played once
    // more. So much of them was taken.
    pending: Vec<u8>,
    taken: usize,
    // Whether the line is one of them.
    is_pending: bool,
    // How many of them are played once more, with no reply shown.
    silent: u64,
}

impl<'a, I: BufRead, O: Write, A: Answers> Terminal<'a, I, O, A> {
    // Nothing was typed yet.
    fn new(
        host: HostRuntime,
        answers: &'a A,
        reader: &'a mut I,
        writer: &'a mut O,
    ) -> Terminal<'a, I, O, A> {
        Terminal {
            host,
            answers,
            reader,
            writer,
            line: Vec::new(host.alloc()),
            script: Vec::new(host.alloc()),
            pending: Vec::new(host.alloc()),
            taken: 0,
            is_pending: false,
            silent: 0,
        }
    }

    // Tells that the line that was typed is a fault, and how far its session is where that is why.
    // What is left of a file is not played.
    fn tell(
        &mut self,
        number: u64,
        cause: Cause,
        stage: Option<SessionStage>,
    ) -> Result<(), Broken> {
        let host = self.host;
        self.pending.clear();
        self.taken = 0;
        self.silent = 0;
        let mut text = Vec::new(host.alloc());
        put_fault(&mut text, number, cause)?;
        send(self.writer, text.as_slice())?;
        finish(self.writer)?;
        tell_fault(host, number, cause, self.line.as_slice(), stage);
        Ok(())
    }

    // Takes the next line: one that waits to be played, else one that is typed.
    fn next_line(&mut self) -> Result<Found, Broken> {
        let mut rest = self
            .pending
            .as_slice()
            .get(self.taken..)
            .unwrap_or_default();
        self.is_pending = !rest.is_empty();
        if !self.is_pending {
            self.pending.clear();
            self.taken = 0;
            return read_line(self.reader, &mut self.line);
        }
        let found = read_line(&mut rest, &mut self.line)?;
        let left = rest.len();
        self.taken = self.pending.len().saturating_sub(left);
        Ok(found)
    }

    // Writes a line that answers what was asked.
    fn say(&mut self, words: &str, line: &[u8]) -> Result<(), Broken> {
        send(self.writer, words.as_bytes())?;
        send(self.writer, line)?;
        send(self.writer, b"\n")?;
        finish(self.writer)
    }

    // Has the lines of a file played next, where it can be read.
    fn read_script(&mut self, name: &str) -> Result<(), Broken> {
        if self.is_pending {
            return self.say("a file that is read reads no other", b"");
        }
        if let Some(text) = read_file(self.host, name) {
            self.pending = text;
            self.taken = 0;
        }
        Ok(())
    }

    // Writes the step that was typed as a line of a script has it, where it was typed in words.
    fn spell_out(&mut self, number: u64) -> Result<(), Broken> {
        if !is_shorthand(self.line.as_slice()) {
            return Ok(());
        }
        let Ok(text) = str::from_utf8(self.line.as_slice()) else {
            return Ok(());
        };
        if let Some(step) = step_typed(self.host.alloc(), number, text)? {
            self.line = step;
        }
        Ok(())
    }

    // Does what the line that was read asks for: what that leads to, where it ends the reading.
    fn do_asked<F: Fresh>(&mut self, number: u64) -> Result<Option<Typed>, Broken> {
        let line = self.line.to_vec(self.host.alloc())?;
        match asked_of(line.as_slice()) {
            Asked::Nothing => {}
            Asked::Quit => return Ok(Some(Typed::End)),
            Asked::Undo if self.script.is_empty() => self.say("nothing is to be taken back", b"")?,
            Asked::Undo => return Ok(Some(Typed::Undo)),
            Asked::Read(name) => self.read_script(name)?,
            Asked::Write(name) => write_file(self.host, name, self.script.as_slice()),
            Asked::Question => {
                let (alloc, script) = (self.host.alloc(), self.script.as_slice());
                let asked = line.as_slice();
                answer_question::<F, _, _>(alloc, self.answers, asked, script, self.writer)?;
            }
            Asked::Step => {
                self.spell_out(number)?;
                return Ok(Some(Typed::Step));
            }
        }
        Ok(None)
    }

    // Reads the next step, and does what is asked before.
    fn next_step<F: Fresh>(&mut self, number: u64) -> Result<Typed, Broken> {
        'typed: for _ in 0..u64::MAX {
            match self.next_line()? {
                Found::End => return Ok(Typed::End),
                Found::Long => {
                    self.tell(number, Cause::Long, None)?;
                    return Ok(Typed::Long);
                }
                Found::Line => {
                    if let Some(typed) = self.do_asked::<F>(number)? {
                        return Ok(typed);
                    }
                }
            }
        }
        Ok(Typed::End)
    }

    // Shows the reply to the line that was typed, unless that is played once more.
    fn show(&mut self, number: u64, text: &[u8]) -> Result<(), Broken> {
        if self.silent > 0 {
            self.silent -= 1;
            return Ok(());
        }
        send(self.writer, text)?;
        finish(self.writer)?;
        tell_undeclared(self.host, number, text, self.script.as_slice());
        Ok(())
    }

    // Has the lines that went well, but for the last, played once more.
    fn take_back(&mut self) -> Result<(), Broken> {
        let alloc = self.host.alloc();
        let script = mem::replace(&mut self.script, Vec::new(alloc));
        let mut count = 0_u64;
        'lines: for byte in &script {
            if *byte == b'\n' {
                count = count.saturating_add(1);
            }
        }
        self.silent = count.saturating_sub(1);
        let kept = first_lines(script.as_slice(), self.silent);
        let last = script.as_slice().get(kept.len()..).unwrap_or_default();
        self.pending = kept.to_vec(alloc)?;
        self.taken = 0;
        self.say("taken back: ", last.trim_ascii_end())
    }

    // Tries the line that was typed: whether it went well. Its reply is written, or why it is a
    // fault.
    fn try_step<J: JournalId, F: Families + Drop>(
        &mut self,
        player: &mut Player<J, F>,
    ) -> Result<bool, Broken>
        requires { IsPlayer J.bounds player.old }
        ensures { IsPlayer J.bounds player.new }
    {
        let alloc = self.host.alloc();
        match player.play(alloc, self.line.as_slice())? {
            Err(cause) => {
                let stage = player.stage_at(alloc, self.line.as_slice()).unwrap_or(None);
                self.tell(player.number().saturating_add(1), cause, stage)?;
                Ok(false)
            }
            Ok(reply) => {
                let mut text = Vec::new(alloc);
                put_reply(&mut text, player.number(), &reply)?;
                self.script.extend_from_slice(self.line.as_slice())?;
                self.script.push(b'\n')?;
                self.show(player.number(), text.as_slice())?;
                Ok(true)
            }
        }
    }

    // Plays what is typed over a journal that was opened, the first line of which was typed: what
    // ended it, or None where that first line is a fault.
    fn play<J: JournalId, F: Fresh>(
        &mut self,
        opened: Opened,
        families: Vec<F>,
    ) -> Result<Option<Typed>, Broken>
        requires named { (opened.table ≡ J.table) × (opened.bounds ≡ J.bounds) × (opened.seats ≡ J.seats) }
        requires few { vec_len families ≡ length opened.bounds + 1 }
        requires seats { opened.seats ≡ length opened.bounds + 2 + limits.MAX_LIVE_SESSIONS }
        requires empty { All (λ f. F.content f ≡ (λ k. nothing_held)) families.items }
    {
        let alloc = self.host.alloc();
        let mut player = Player::<J, F>::new(alloc, opened, families)?;
        if !self.try_step(&mut player)? {
            return Ok(None);
        }
        let mut typed = Typed::Step;
        'steps: for _ in 0..u64::MAX {
            typed = self.next_step::<F>(player.number().saturating_add(1))?;
            if typed != Typed::Step {
                break;
            }
            self.try_step(&mut player)?;
        }
        player.end();
        Ok(Some(typed))
    }

    // Plays what is typed from the line on that was typed, which may say the regions: what ended
    // it, or None where that line is a fault.
    fn begin<F: Fresh>(&mut self) -> Result<Option<Typed>, Broken> {
        let (opened, families) = journal::<F>(self.host.alloc(), self.line.as_slice())?;
        self.play::<Brand, F>(opened, families)
    }

    // Reads lines until one of them is a first step that is no fault, and plays what is typed from
    // it on, once more where a line is taken back: what ended it.
    fn converse<F: Fresh>(&mut self) -> Result<Typed, Broken> {
        'firsts: for _ in 0..u64::MAX {
            let typed = self.next_step::<F>(1)?;
            if typed != Typed::Step {
                return Ok(typed);
            }
            match self.begin::<F>()? {
                Some(Typed::Undo) => self.take_back()?,
                Some(typed) => return Ok(typed),
                None => {}
            }
        }
        Ok(Typed::End)
    }
}

/// Plays the script that is typed, to the end of the input, over families of this kind: each line
/// is replied to as `simulate` does. One that is a fault is told, on standard error why, and the
/// next one is read in its place, with its number; it leaves all as it was. Empty lines and
/// comments are passed over. A step may be typed in words. Between two lines questions are
/// answered, those on the whole run by `answers`, lines are taken back, and files read and written;
/// `:help` tells of all.
///
/// Well where the input ended or `:quit` was typed, whatever was a fault; `Faulted` after a line
/// that is too long, of which what is left is not read. `Input` where a read failed, `Output` where
/// a write or the flush failed, `Memory` where a growth was refused outside of a step's own calls.
pub fn converse<F: Fresh, I: BufRead, O: Write, A: Answers>(
    host: HostRuntime,
    answers: &A,
    reader: &mut I,
    writer: &mut O,
) -> Result<End, Broken> {
    let _ = eprintln!(host; "Type steps, as A begin, A put a x; :help tells of all, :quit leaves.");
    let typed = Terminal::new(host, answers, reader, writer).converse::<F>()?;
    finish(writer)?;
    match typed {
        Typed::Long => Ok(End::Faulted),
        Typed::Step | Typed::Undo | Typed::End => Ok(End::Well),
    }
}
