//! The names of a line's members, as its text has them, and whether one stands there twice.
ghost use Rattle.std.specs.Prelude.{◌≡◌, ◌≤◌, ◌↔◌, map, length, IsTrue, IsSorted, IfOk, MatchBool};
ghost use Rattle.std.specs.Ordering.{nat_cmp};
ghost use Rattle.std.specs.Cmp.Lexicographic.{slice_cmp};
ghost use Rattle.json.specs.Json as spec;
ghost use Rattle.json.specs.Find.{InMembers};
ghost use Rattle.json.specs.Strict.{keys, AreDistinct};
ghost use Rattle.tx_text.specs.Lines.{max_line};
ghost use Rattle.tx_import.specs.MemberNames.{HasOneTwice, HasNoneTwice};

use json::{Error, Members, Scratch, Tape};
use std::alloc::{AllocError, Global};

// The names of members.
fn names_of<'a>(alloc: Global, members: Members<'_, 'a>) -> Result<Vec<&'a str>, AllocError>
    ensures { IfOk result (λ names. (ms : spec.Members) → InMembers members.entry ms
        → map (λ k. k.now) names.items ≡ keys ms) }
{
    let mut left = members;
    let mut names = Vec::new(alloc);
    while let Some((name, _)) = left.next() {
        names.push(name)?;
    }
    Ok(names)
}

// Whether no two that stand side by side are one.
fn neighbours_differ(names: &[&str]) -> bool
    requires { IsSorted (λ a b. slice_cmp nat_cmp a.now b.now) names.now }
    ensures { IsTrue result ↔ AreDistinct (map (λ k. k.now) names.now) }
{
    for i in 1..names.len() {
        if names[i - 1] == names[i] {
            return false;
        }
    }
    true
}

// Whether no two are one. It may change their order.
fn are_distinct(names: &mut [&str]) -> bool
    ensures { IsTrue result ↔ AreDistinct (map (λ k. k.now) names.old) }
{
    names.sort_unstable();
    neighbours_differ(names)
}

/// Whether the line is an object that has a member twice.
pub(crate) fn has_one_twice(
    alloc: Global,
    scratch: &mut Scratch,
    line: &str,
) -> Result<bool, AllocError>
    requires { length line.now ≤ max_line }
    ensures { IfOk result (λ twice. MatchBool twice (HasOneTwice line.now) (HasNoneTwice line.now)) }
{
    let tape = match Tape::parse(line, scratch, Vec::new(alloc)) {
        Ok(tape) => tape,
        Err(Error::OutOfMemory) => return Err(AllocError),
        Err(_) => return Ok(false),
    };
    let Some(members) = tape.root().members() else {
        return Ok(false);
    };
    let mut names = names_of(alloc, members)?;
    Ok(!are_distinct(names.as_mut_slice()))
}
