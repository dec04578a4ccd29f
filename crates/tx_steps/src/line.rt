//! A line of a script, as it was read: what it says is a step, or there is a cause
//! why it says none.
ghost use Rattle.std.specs.Prelude.{◌≡◌, option_map, Some, None, if◌then◌else◌, Ok, Err, IfOk, IfErr, IfSome, IsTrue, MatchResult};
ghost use Rattle.serde_json.specs.Data.{array};
ghost use Rattle.serde_json.specs.View.{view};
ghost use Rattle.tx_types.specs.declared.fault.Fault.TheVariants as fault;
ghost use Rattle.tx_text.specs.Parts.{parts_items};
ghost use Rattle.tx_steps.specs.Steps.{asked, IsApart};
ghost use Rattle.tx_steps.specs.Lines.{data_of, data_said, step_in, bounds_in};

use crate::bounds::bounds_of;
use crate::program::Program;
use crate::step::{Step, put_step};
use serde_json::Value;
use std::alloc::Global;
use tx_text::{Broken, Part, Parts, parts_of, scanned, value_of};
use tx_types::limits::{MAX_LINE_BYTES, MAX_LINES};
use tx_types::{Cause, Fault, Key};

/// A line that is JSON: the members of a plain one, or its value.
#[derive(Drop)]
pub enum Line<'p, 'a> {
    Plain(&'p [Part<'a>]),
    Other(Value),
}

// Puts the step that a value says in a program's scripts into `out`, and tells
// whether it says one.
#[cold]
#[inline(never)]
fn put_step_of_value<'s>(program: Program, value: &'s Value, out: &mut Step<&'s str>) -> bool
    ensures { (if result then Some (asked out.new) else None) ≡ step_in program (view value.now) }
{
    match parts_of(value) {
        None => false,
        Some(parts) => put_step(program, parts.as_slice(), out),
    }
}

/// Reads the line of this number where it is within the limits, and an array of plain members:
/// these are put into `parts`, in place of what was there.
#[inline(always)]
pub fn scanned_line<'a>(number: u64, line: &'a [u8], parts: &mut Parts<'a>) -> bool
    ensures { IsTrue result → data_said number line.now ≡ Ok (array (parts_items parts.new.items)) }
{
    line.len() <= MAX_LINE_BYTES && number <= MAX_LINES && scanned(line, parts)
}

// Reads a line as a value. Causes are looked for in the order `Long`, `Lines`, `Json`.
#[cold]
#[inline(never)]
fn read_value<'p, 'a>(
    alloc: Global,
    number: u64,
    line: &[u8],
) -> Result<Result<Line<'p, 'a>, Cause>, Broken>
    ensures ok { IfOk result (λ found. MatchResult found (λ l. data_said number line.now
        ≡ Ok (data_of l)) (λ cause. data_said number line.now ≡ Err cause)) }
    ensures err { IfErr result (λ why. why ≡ Broken.Memory) }
{
    if line.len() > MAX_LINE_BYTES {
        return Ok(Err(Cause::Long));
    }
    if number > MAX_LINES {
        return Ok(Err(Cause::Lines));
    }
    match value_of(alloc, line)? {
        Ok(value) => Ok(Ok(Line::Other(value))),
        Err(cause) => Ok(Err(cause)),
    }
}

impl<'p, 'a> Line<'p, 'a> {
    /// Reads the line of this number. Causes are looked for in the order `Long`, `Lines`, `Json`.
    /// The members of a plain line are put into `parts`, in place of what was there.
    ///
    /// `Memory` where a growth was refused.
    #[inline(always)]
    pub fn read(
        alloc: Global,
        number: u64,
        line: &'a [u8],
        parts: &'p mut Parts<'a>,
    ) -> Result<Result<Line<'p, 'a>, Cause>, Broken>
        ensures ok { IfOk result (λ found. MatchResult found (λ l. data_said number line.now
            ≡ Ok (data_of l)) (λ cause. data_said number line.now ≡ Err cause)) }
        ensures err { IfErr result (λ why. why ≡ Broken.Memory) }
    {
        if scanned_line(number, line, parts) {
            return Ok(Ok(Line::Plain(parts.as_slice())));
        }
        read_value(alloc, number, line)
    }

    // Puts the step that it says in a program's scripts into `out`, and tells
    // whether it says one.
    fn put_step<'s>(&'s self, program: Program, out: &mut Step<&'s str>) -> bool
        ensures { (if result then Some (asked out.new) else None) ≡ step_in program (data_of self.now) }
    {
        match self {
            Line::Plain(parts) => put_step(program, parts, out),
            Line::Other(value) => put_step_of_value(program, value, out),
        }
    }

    /// The step that it says in a program's scripts, where it says one. Where it says none, and no
    /// bounds either, the cause is `Form`. The keys of a transfer differ.
    #[inline(always)]
    pub fn step(&self, program: Program) -> Option<Step<&str>>
        ensures said { option_map asked result ≡ step_in program (data_of self.now) }
        ensures apart { IfSome result (λ step. IsApart (asked step)) }
    {
        let mut step = Step::Tick(0);
        if self.put_step(program, &mut step) {
            Some(step)
        } else {
            None
        }
    }

    /// The keys between the regions that it says, where it says some. Only line 1 may.
    pub fn bounds(&self, alloc: Global) -> Result<Option<Vec<Key>>, Fault>
        ensures ok { IfOk result (λ found. option_map (λ keys. keys.items) found ≡ bounds_in (data_of self.now)) }
        ensures err { IfErr result (λ e. e ≡ fault.OutOfMemory) }
    {
        match self {
            Line::Plain(parts) => bounds_of(alloc, parts),
            Line::Other(value) => match parts_of(value) {
                None => Ok(None),
                Some(parts) => bounds_of(alloc, parts.as_slice()),
            },
        }
    }
}
