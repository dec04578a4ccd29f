//! A script of a run, read whole: its regions, its seeds, and the lines of each session.
ghost use Rattle.std.specs.Prelude.{◌≡◌, ℕ, ◌+◌, ◌<◌, ◌≤◌, List, [], ◌∷◌, ◌++◌, map, set, get_or, bytes_eq};
ghost use Rattle.std.specs.Prelude.{Some, option_map, if◌then◌else◌, IfErr, IfOk, OnOk, vec_len};
ghost use Rattle.std.specs.BTreeMap.{get_by_text};
ghost use Rattle.tx_evidence.specs.Lines.{bounds_by};
ghost use Rattle.tx_workload.specs.Scripts.{IsWithin};
ghost use Rattle.tx_steps.specs.Lines.{bounds_in, data_of};
ghost use Rattle.tx_steps.specs.Steps.{asked, IsApart};
ghost use Rattle.tx_workload.specs.Faults.{IsFaultless, IsTooMany, TakesLine, TellsFault, opens};
ghost use Rattle.tx_workload.specs.LineNumbers.{number_of, numbers_in};
ghost use Rattle.tx_workload.specs.ScriptLines.{KeepsText, name_in, step_of};
ghost use Rattle.tx_workload.specs.Readers.{HasSession, HasSorted};
ghost use Rattle.tx_workload.specs.Steps.{SaysStep};
ghost use Rattle.tx_transfer.specs.Sources.{HasLine, HasTransfer, transfer_of};

use crate::session_line::{ScriptLine, SessionLine};
use std::alloc::{AllocError, Global};
use std::collections::BTreeMap;
use std::io::BufRead;
use tx_steps::{Line, Program, Step};
use tx_text::{Broken, Found, Parts, read_line};
use tx_transfer::{Order, Source};
use tx_types::limits::MAX_LIVE_SESSIONS;
use tx_types::{Cause, Key, is_name};

/// A script.
#[derive(Drop)]
pub struct Script<L: Source> {
    /// The keys between the regions; none where line 1 says none.
    pub bounds: Vec<Key>,
    pub seeds: Vec<ScriptLine<L>>,
    /// The lines of each session, in the order of their first lines.
    pub sessions: Vec<Vec<SessionLine<L>>>,
}

// A script as far as it is read.
#[derive(Drop)]
struct ScriptReader<L: Source> {
    alloc: Global,
    script: Script<L>,
    /// The index of each session in the script, by its name.
    indexes: BTreeMap<String, usize>,
}

// The name of the session of a step; none of a seed's.
fn name_of<'a>(step: Step<&'a str>) -> Option<&'a str>
    ensures { option_map (λ name. name.now) result ≡ name_in (asked step.entry) }
{
    match step {
        Step::Begin(name) | Step::Act(name, _) | Step::Send(name, _, _) | Step::Transfer(name, _) =>
            Some(name),
        _ => None,
    }
}

// A line of a session, under its number. A transfer that is refused a key or memory is read again
// when it is played.
fn session_line<L: Source>(
    alloc: Global,
    number: u64,
    text: &[u8],
    step: Step<&str>,
) -> Result<SessionLine<L>, AllocError>
    requires line { HasLine L.text number text.now }
    requires says { SaysStep L.text number }
    requires apart { IsApart (asked step) }
    requires orders { HasTransfer L.text number (transfer_of (asked step)) }
    ensures { IfOk result (λ line. number_of line ≡ number) }
{
    if let Step::Transfer(name, transfer) = step {
        if is_name(name) {
            if let Ok(order) = Order::new(alloc, number, &transfer) {
                return Ok(SessionLine::Transfer(order));
            }
        }
    }
    let line = ScriptLine::new(alloc, number, text, step)?;
    Ok(SessionLine::Line(Box::new(alloc, line)?))
}

// Adds a line to the session of this index, where there is one.
fn add_line<L: Source>(
    sessions: &mut Vec<Vec<SessionLine<L>>>,
    index: usize,
    line: SessionLine<L>,
) -> Result<(), Broken>
    ensures count { OnOk result (vec_len sessions.new ≡ vec_len sessions.old) }
    ensures added { OnOk result (index < vec_len sessions.old → numbers_in sessions.new.items
        ≡ set (numbers_in sessions.old.items) index
        (get_or (numbers_in sessions.old.items) index [] ++ number_of line ∷ [])) }
{
    if let Some(lines) = sessions.get_mut(index) {
        lines.push(line)?;
    }
    Ok(())
}

impl<L: Source> ScriptReader<L> {
    fn new(alloc: Global) -> ScriptReader<L>
        ensures within { IsWithin result.script.bounds.items (vec_len result.script.sessions) }
        ensures none { vec_len result.script.sessions ≡ 0 }
        ensures sorted { HasSorted L.text 1 result }
    {
        ScriptReader {
            alloc,
            script: Script {
                bounds: Vec::new(alloc),
                seeds: Vec::new(alloc),
                sessions: Vec::new(alloc),
            },
            indexes: BTreeMap::new(alloc),
        }
    }

    // What was read.
    fn into_script(self) -> Script<L>
        ensures { result ≡ self.script }
    {
        let ScriptReader {
            alloc: _,
            script,
            indexes: _,
        } = self;
        script
    }

    // Begins the session of this name with its first line.
    fn begin(&mut self, name: &str, line: SessionLine<L>) -> Result<(), Broken>
        ensures bounds { OnOk result (self.new.script.bounds ≡ self.old.script.bounds) }
        ensures seeds { OnOk result (self.new.script.seeds ≡ self.old.script.seeds) }
        ensures count { OnOk result (vec_len self.new.script.sessions ≡ vec_len self.old.script.sessions + 1) }
        ensures sessions { OnOk result (numbers_in self.new.script.sessions.items
            ≡ numbers_in self.old.script.sessions.items ++ (number_of line ∷ []) ∷ []) }
        ensures indexes { OnOk result ((q : List ℕ) → get_by_text self.new.indexes q
            ≡ (if bytes_eq name.now q then Some (vec_len self.old.script.sessions)
            else get_by_text self.old.indexes q)) }
    {
        let index = self.script.sessions.len();
        let mut lines = Vec::new(self.alloc);
        lines.push(line)?;
        self.script.sessions.push(lines)?;
        let name = String::from_str(self.alloc, name)?;
        self.indexes.insert(name, index)?;
        Ok(())
    }

    // Enters a line of the session of this name, which it begins where it is the first. `Sessions`
    // where there are too many.
    fn enter(&mut self, line: SessionLine<L>, name: &str) -> Result<Result<(), Cause>, Broken>
        requires within { IsWithin self.old.script.bounds.items (vec_len self.old.script.sessions) }
        requires some { 0 < number_of line }
        requires named { HasSession L.text (number_of line) name.now }
        requires sorted { HasSorted L.text (number_of line) self.old }
        ensures within { OnOk result (IsWithin self.new.script.bounds.items (vec_len self.new.script.sessions)) }
        ensures one { OnOk result (vec_len self.new.script.sessions ≤ vec_len self.old.script.sessions + 1) }
        ensures many { IfOk result (λ entered. IfErr entered (IsTooMany (vec_len self.old.script.sessions))) }
        ensures sorted { IfOk result (λ entered. OnOk entered (HasSorted L.text (number_of line + 1) self.new)) }
    {
        if let Some(index) = self.indexes.get(name) {
            add_line(&mut self.script.sessions, *index, line)?;
            return Ok(Ok(()));
        }
        if self.script.sessions.len() >= MAX_LIVE_SESSIONS {
            return Ok(Err(Cause::Sessions));
        }
        self.begin(name, line)?;
        Ok(Ok(()))
    }

    // Takes the keys between the regions from line 1, where it says some.
    fn opens(&mut self, number: u64, line: &Line<'_, '_>) -> Result<bool, Broken>
        requires { IsWithin self.old.script.bounds.items (vec_len self.old.script.sessions) }
        ensures within { OnOk result (IsWithin self.new.script.bounds.items (vec_len self.new.script.sessions)) }
        ensures sessions { OnOk result (self.new.script.sessions ≡ self.old.script.sessions) }
        ensures seeds { OnOk result (self.new.script.seeds ≡ self.old.script.seeds) }
        ensures indexes { OnOk result (self.new.indexes ≡ self.old.indexes) }
        ensures said { IfOk result (λ said. said ≡ opens number (data_of line.now)) }
        ensures bounds { IfOk result (λ said. self.new.script.bounds.items
            ≡ (if said then bounds_by (bounds_in (data_of line.now)) else self.old.script.bounds.items)) }
    {
        if number != 1 {
            return Ok(false);
        }
        match line.bounds(self.alloc) {
            Ok(Some(bounds)) => {
                self.script.bounds = bounds;
                Ok(true)
            }
            Ok(None) => Ok(false),
            Err(_) => Err(Broken::Memory),
        }
    }

    // Takes the step that a line says.
    fn put(
        &mut self,
        number: u64,
        text: &[u8],
        step: Step<&str>,
    ) -> Result<Result<(), Cause>, Broken>
        requires within { IsWithin self.old.script.bounds.items (vec_len self.old.script.sessions) }
        requires line { HasLine L.text number text.now }
        requires apart { IsApart (asked step) }
        requires orders { HasTransfer L.text number (transfer_of (asked step)) }
        requires some { 0 < number }
        requires said { step_of number text.now ≡ Some (asked step) }
        requires sorted { HasSorted L.text number self.old }
        ensures within { OnOk result (IsWithin self.new.script.bounds.items (vec_len self.new.script.sessions)) }
        ensures one { OnOk result (vec_len self.new.script.sessions ≤ vec_len self.old.script.sessions + 1) }
        ensures many { IfOk result (λ put. IfErr put (IsTooMany (vec_len self.old.script.sessions))) }
        ensures sorted { IfOk result (λ put. OnOk put (HasSorted L.text (number + 1) self.new)) }
    {
        match name_of(step) {
            Some(name) => {
                let line = session_line(self.alloc, number, text, step)?;
                self.enter(line, name)
            }
            None => {
                let line = ScriptLine::new(self.alloc, number, text, step)?;
                self.script.seeds.push(line)?;
                Ok(Ok(()))
            }
        }
    }

    // Takes a line.
    fn take(&mut self, number: u64, text: &[u8]) -> Result<Result<(), Cause>, Broken>
        requires within { IsWithin self.old.script.bounds.items (vec_len self.old.script.sessions) }
        requires line { HasLine L.text number text.now }
        requires some { 0 < number }
        requires sorted { HasSorted L.text number self.old }
        ensures within { OnOk result (IsWithin self.new.script.bounds.items (vec_len self.new.script.sessions)) }
        ensures one { OnOk result (vec_len self.new.script.sessions ≤ vec_len self.old.script.sessions + 1) }
        ensures sorted { IfOk result (λ taken. OnOk taken (HasSorted L.text (number + 1) self.new)) }
        ensures takes { IfOk result (λ taken. TakesLine number text.now (vec_len self.old.script.sessions) taken) }
    {
        let mut parts = Parts::new();
        let line = match Line::read(self.alloc, number, text, &mut parts)? {
            Ok(line) => line,
            Err(cause) => return Ok(Err(cause)),
        };
        if self.opens(number, &line)? {
            return Ok(Ok(()));
        }
        match line.step(Program::Run) {
            Some(step) => self.put(number, text, step),
            None => Ok(Err(Cause::Form)),
        }
    }
}

/// Reads a script to its end, within the limits. A fault comes with the number of its line, which
/// is the first that has one. A script that is handed out has none, and has each line that says a
/// step: in the session of its name, or among the seeds.
pub fn read_script<L: Source, B: BufRead>(
    alloc: Global,
    reader: &mut B,
) -> Result<Result<Script<L>, (u64, Cause)>, Broken>
    requires { L.text ≡ B.remaining reader.old }
    ensures within { IfOk result (λ read. IfOk read (λ s. IsWithin s.bounds.items (vec_len s.sessions))) }
    ensures whole { IfOk result (λ read. IfOk read (λ script. IsFaultless L.text)) }
    ensures kept { IfOk result (λ read. IfOk read (λ script. KeepsText L.text (numbers_in script.sessions.items)
        (map (λ seed. seed.number) script.seeds.items) script.bounds.items)) }
    ensures fault { IfOk result (λ read. IfErr read (λ e. TellsFault L.text e.0 e.1)) }
{
    let mut reading = ScriptReader::<L>::new(alloc);
    let mut text = Vec::new(alloc);
    for number in 1..u64::MAX {
        match read_line(reader, &mut text)? {
            Found::End => return Ok(Ok(reading.into_script())),
            Found::Long => return Ok(Err((number, Cause::Long))),
            Found::Line => if let Err(cause) = reading.take(number, text.as_slice())? {
                return Ok(Err((number, cause)));
            },
        }
    }
    unreachable!()
}
