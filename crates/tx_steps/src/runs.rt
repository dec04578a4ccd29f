//! The steps that only runs have.
ghost use Rattle.std.specs.Prelude.{◌≡◌, option_map};
ghost use Rattle.tx_text.specs.Parts.{parts_items};
ghost use Rattle.tx_steps.specs.Steps.{asked, moved, moved_said, seed_said, transfer_said};

use crate::members::{between, last_text, text};
use crate::op::mode_of;
use crate::step::Step;
use crate::transfer::{MAX_AMOUNT, Transfer};
use tx_text::Part;

// What is moved.
fn moved<'a>(members: &[Part<'a>]) -> Option<Transfer<&'a str>>
    ensures { option_map moved result ≡ moved_said (parts_items members.now) }
{
    let (from, rest) = text(members)?;
    let (to, rest) = text(rest)?;
    let (amount, rest) = between(1, MAX_AMOUNT, rest)?;
    let mode = mode_of(last_text(rest)?)?;
    if from == to {
        None
    } else {
        Some(Transfer {
            from,
            to,
            amount,
            mode,
        })
    }
}

/// Puts the step `transfer` into `out`.
#[inline(never)]
pub(crate) fn transfers<'a>(members: &[Part<'a>], out: &mut Step<&'a str>) -> Option<()>
    ensures { option_map (λ _. asked out.new) result ≡ transfer_said (parts_items members.now) }
{
    let (name, rest) = text(members)?;
    *out = Step::Transfer(name, moved(rest)?);
    Some(())
}

/// Puts the step `seed` into `out`.
#[inline(never)]
pub(crate) fn seed<'a>(members: &[Part<'a>], out: &mut Step<&'a str>) -> Option<()>
    ensures { option_map (λ _. asked out.new) result ≡ seed_said (parts_items members.now) }
{
    let (key, rest) = text(members)?;
    *out = Step::Seed(key, last_text(rest)?);
    Some(())
}
