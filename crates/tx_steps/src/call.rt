//! What a session sends, and the step that sends it.
ghost use Rattle.std.specs.Prelude.{◌≡◌, option_map};
ghost use Rattle.tx_text.specs.Parts.{parts_items};
ghost use Rattle.tx_steps.specs.Steps.{asked, called, sends_said, get_said, range_said, scan_said, heartbeat_said};

use crate::delivery::delivery_of;
use crate::members::{text, within};
use crate::step::Step;
use tx_text::Part;
use tx_types::limits::{MAX_SCAN_ROWS, MAX_TTL};

/// What a session sends to the store. A delivery may be told of it.
#[derive(Clone, Copy, Debug, Drop)]
pub enum Call<S> {
    /// A key is read.
    Get(S),
    /// From a key, up to but not including another, so many rows at most: 1 to `MAX_SCAN_ROWS`.
    Scan(S, S, u32),
    /// The prewrite that is due.
    Prewrite,
    /// The commit that is due.
    Commit,
    /// The rollback that is due.
    Abort,
    /// The time that the transaction's locks are to live from its start, in ticks.
    Heartbeat(u32),
}

/// Puts the step of a request that nothing more is told of into `out`.
pub(crate) fn sends<'a>(
    what: Call<&'a str>,
    members: &[Part<'a>],
    out: &mut Step<&'a str>,
) -> Option<()>
    ensures { option_map (λ _. asked out.new) result ≡ sends_said (called what.entry) (parts_items members.now) }
{
    let (name, rest) = text(members)?;
    *out = Step::Send(name, what, delivery_of(rest)?);
    Some(())
}

/// Puts the step `get` into `out`.
pub(crate) fn get<'a>(members: &[Part<'a>], out: &mut Step<&'a str>) -> Option<()>
    ensures { option_map (λ _. asked out.new) result ≡ get_said (parts_items members.now) }
{
    let (name, rest) = text(members)?;
    let (key, rest) = text(rest)?;
    *out = Step::Send(name, Call::Get(key), delivery_of(rest)?);
    Some(())
}

// The range of a scan, and what comes after it.
fn range<'m, 'a>(members: &'m [Part<'a>]) -> Option<(Call<&'a str>, &'m [Part<'a>])>
    ensures { option_map (λ found. (
      called found.0,
      parts_items found.1.now,
    )) result ≡ range_said (parts_items members.now) }
{
    let (from, rest) = text(members)?;
    let (to, rest) = text(rest)?;
    let (limit, rest) = within(1, MAX_SCAN_ROWS, rest)?;
    Some((Call::Scan(from, to, limit), rest))
}

/// Puts the step `scan` into `out`.
#[inline(never)]
pub(crate) fn scan<'a>(members: &[Part<'a>], out: &mut Step<&'a str>) -> Option<()>
    ensures { option_map (λ _. asked out.new) result ≡ scan_said (parts_items members.now) }
{
    let (name, rest) = text(members)?;
    let (scan, rest) = range(rest)?;
    *out = Step::Send(name, scan, delivery_of(rest)?);
    Some(())
}

/// Puts the step `heartbeat` into `out`.
#[inline(never)]
pub(crate) fn heartbeat<'a>(members: &[Part<'a>], out: &mut Step<&'a str>) -> Option<()>
    ensures { option_map (λ _. asked out.new) result ≡ heartbeat_said (parts_items members.now) }
{
    let (name, rest) = text(members)?;
    let (ttl, rest) = within(0, MAX_TTL, rest)?;
    *out = Step::Send(name, Call::Heartbeat(ttl), delivery_of(rest)?);
    Some(())
}
