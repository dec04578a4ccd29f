//! Which region a key lies in.
ghost use Rattle.std.specs.Prelude.{◌≡◌, ◌↔◌, ◌-◌, ◌<◌, ◌≤◌, length, IsTrue, IfOk, IfErr, slice_index_or};
ghost use Rattle.tx_types.specs.declared.fault.Fault.TheVariants.{OutOfMemory};
ghost use Rattle.tx_plan.specs.declared.body.Body.TheVariants as request;
ghost use Rattle.tx_core.specs.Worlds.{Holds, route};
ghost use Rattle.tx_types.specs.Keys.{AreRising};
ghost use Rattle.tx_region.specs.KeyFronts.{AreFronts};

use std::alloc::Global;
use tx_plan::{Body, Scan, Target};
use tx_types::{Fault, Key};

/// The number of the region of a key, where these are the keys between the regions: so many of them
/// lie at the key or below it. A binary search.
pub fn route(bounds: &[Key], key: &Key) -> usize
    requires { AreRising bounds.now }
    ensures { result ≡ route bounds.now key.now }
{
    bounds.partition_point(|bound| *bound <= *key)
}

/// The fronts of the keys between the regions, by which `route_by` finds the region of a key.
pub fn fronts(alloc: Global, bounds: &[Key]) -> Result<Vec<u64>, Fault>
    ensures ok { IfOk result (λ fronts. AreFronts bounds.now fronts.items) }
    ensures err { IfErr result (λ e. e ≡ OutOfMemory) }
{
    let mut fronts = Vec::with_capacity(alloc, bounds.len())?;
    for index in 0..bounds.len() {
        fronts.push_reserved(bounds[index].front());
    }
    Ok(fronts)
}

// Whether a number at an index is greater than this front, or there is none.
fn is_past(fronts: &[u64], index: usize, front: u64) -> bool
    ensures { IsTrue result → index < length fronts.now → front < slice_index_or fronts.now index 0 }
{
    match fronts.get(index) {
        Some(next) => front < *next,
        None => true,
    }
}

// Whether the number before an index is smaller than this front, or there is none.
fn is_reached(fronts: &[u64], index: usize, front: u64) -> bool
    requires { index ≤ length fronts.now }
    ensures { IsTrue result → 0 < index → slice_index_or fronts.now (index - 1) 0 < front }
{
    index == 0 || fronts[index - 1] < front
}

// How many of these numbers are smaller than this one, as far as 255.
fn count_below(fronts: &[u64], bound: u64) -> u8 {
    let mut count: u8 = 0;
    for front in fronts {
        if *front < bound {
            count = count.saturating_add(1);
        }
    }
    count
}

/// Where the search for the region of a key begins: fronts in 64 ranges of one length, and of each
/// range how many of the keys between the regions lie before it. Nothing rests on it but time.
#[derive(Drop)]
pub struct FrontRanges {
    low: u64,
    shift: u32,
    before: [u8; RANGES],
}

/// How many ranges there are.
const RANGES: usize = 64;

impl FrontRanges {
    /// The ranges of these fronts, which rise.
    pub fn new(fronts: &[u64]) -> FrontRanges {
        let low = fronts.first().copied().unwrap_or(0);
        let span = fronts.last().copied().unwrap_or(0).saturating_sub(low);
        let mut shift: u32 = 0;
        for _ in 0..58 {
            if span.wrapping_shr(shift) >= 64 {
                shift = shift.saturating_add(1);
            }
        }
        let mut before = [0; RANGES];
        for range in 0..RANGES {
            let from = low.saturating_add((range as u64).wrapping_shl(shift));
            before[range] = count_below(fronts, from);
        }
        FrontRanges { low, shift, before }
    }

    // How many keys between the regions lie before the range of a front.
    #[inline(always)]
    fn of(&self, front: u64) -> usize {
        let range = front.saturating_sub(self.low).wrapping_shr(self.shift);
        match self.before.get(range.min(63) as usize) {
            Some(before) => usize::from(*before),
            None => 0,
        }
    }
}

// The first index from this one on at which the number is not smaller than this front.
#[inline(always)]
fn first_from(fronts: &[u64], from: usize, front: u64) -> usize
    ensures { result ≤ length fronts.now }
{
    for index in from..fronts.len() {
        if !(fronts[index] < front) {
            return index;
        }
    }
    fronts.len()
}

/// As `route`, with the fronts of the keys between the regions: mostly they alone tell.
#[inline(always)]
pub fn route_by(ranges: &FrontRanges, fronts: &[u64], bounds: &[Key], key: &Key) -> usize
    requires rising { AreRising bounds.now }
    requires fronts { AreFronts bounds.now fronts.now }
    ensures { result ≡ route bounds.now key.now }
{
    let front = key.front();
    let index = first_from(fronts, ranges.of(front), front);
    if is_past(fronts, index, front) && is_reached(fronts, index, front) {
        index
    } else {
        route(bounds, key)
    }
}

// Whether the whole range of a scan lies in the region of this number: so does its first key, and
// no region begins inside the range.
fn is_within(bounds: &[Key], number: usize, body: &Scan) -> bool
    requires { AreRising bounds.now }
    ensures { IsTrue result ↔ Holds bounds.now number (request.Scan body.now) }
{
    if body.from >= body.to {
        return true;
    }
    if route(bounds, &body.from) != number {
        return false;
    }
    match bounds.get(number) {
        Some(next) => body.to <= *next,
        None => true,
    }
}

/// Whether the region of this number holds what a request speaks of: its key, or the whole range of
/// a scan, or the request names it.
pub(crate) fn holds(bounds: &[Key], number: u32, body: &Body) -> bool
    requires { AreRising bounds.now }
    ensures { IsTrue result ↔ Holds bounds.now number body.now }
{
    match body.target() {
        Target::Key(key) => route(bounds, key) == number as usize,
        Target::Range(scan) => is_within(bounds, number as usize, scan),
        Target::Region(region) => region.get() == number,
    }
}
