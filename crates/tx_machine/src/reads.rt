//! Which keys were read, and up to which timestamp: what a commit has to lie above.
//!
//! Of a key that was read alone only the greatest timestamp is kept. Ranges are kept by timestamp,
//! since a commit asks only for those at its own timestamp or above, which are few.
ghost use Rattle.std.specs.Prelude.{◌≡◌, ℕ, ◌<◌, ◌≤◌, List, [], ◌∷◌, ◌++◌, true, false, ◌↔◌, Some, IsTrue, cond, ◌==◌, unwrap_or, OnOk, OnErr, IfErr, IfSome, IfNone};
ghost use Rattle.std.specs.List.{list_any};
ghost use Rattle.std.specs.Cmp.Lexicographic.{slice_cmp};
ghost use Rattle.std.specs.Ordering.{nat_cmp};
ghost use Rattle.std.specs.BTreeMap as tree;
ghost use Rattle.tx_machine.specs.declared.reads.Span.{Span};
ghost use Rattle.tx_types.specs.declared.key.Key.{Key};
ghost use Rattle.tx_machine.specs.Noted.{IsNoted, AddsRead, SameReads, span_covers, key_test};

use crate::versions::first_above;
use std::alloc::Global;
use std::collections::BTreeMap;
use tx_types::{Fault, Items, Key, Ts};

/// The keys from one up to another, which is among them where the span is closed.
#[derive(Drop)]
pub(crate) struct Span {
    pub from: Key,
    pub to: Key,
    pub is_closed: bool,
}

impl Span {
    fn covers(&self, key: &Key) -> bool
        ensures { result ≡ span_covers self.now key.now }
    {
        self.from <= *key && (*key < self.to || (self.is_closed && *key == self.to))
    }
}

// Whether one of the spans has the key.
fn cover(spans: &Items<Span>, key: &Key) -> bool
    ensures { result ≡ list_any (λ span. span_covers span key.now) spans.now }
{
    spans.as_slice().iter().any(|span| span.covers(key))
}

/// The reads that were made.
#[derive(Drop)]
pub(crate) struct Reads {
    points: BTreeMap<Key, Ts>,
    spans: BTreeMap<Ts, Items<Span>>,
}

impl Reads {
    pub fn new(alloc: Global) -> Reads
        ensures { (k : Key) (r : ℕ) → IsNoted result k r → ⊥ }
    {
        Reads {
            points: BTreeMap::new(alloc),
            spans: BTreeMap::new(alloc),
        }
    }

    // Where the key was read alone, at this timestamp or above.
    fn read_alone(&self, key: &Key, from: Ts) -> Option<Ts>
        ensures some { IfSome result (λ r. (from ≤ r)
            × (tree.get (slice_cmp nat_cmp) self.now.points key.now ≡ Some r)) }
        ensures none { IfNone result ((r : ℕ) → tree.get (slice_cmp nat_cmp) self.now.points key.now ≡ Some r
            → r < from) }
    {
        match self.points.get(key) {
            Some(at) if *at >= from => Some(*at),
            _ => None,
        }
    }

    // Whether a span that was read at this very timestamp has the key.
    fn is_in_spans(&self, key: &Key, at: Ts) -> bool
        ensures { IsTrue result ↔ ((spans : List Span) × (tree.get nat_cmp self.now.spans at ≡ Some spans)
            × (list_any (λ span. span_covers span key.now) spans ≡ true)) }
    {
        match self.spans.get(&at) {
            Some(spans) => cover(spans, key),
            None => false,
        }
    }

    /// Where the key was covered by a read, at this timestamp or above.
    pub fn read_from(&self, key: &Key, from: Ts) -> Option<Ts>
        ensures some { IfSome result (λ r. (from ≤ r) × IsNoted self.now key.now r) }
        ensures none { IfNone result ((r : ℕ) → IsNoted self.now key.now r → r < from) }
    {
        if let Some(at) = self.read_alone(key, from) {
            return Some(at);
        }
        if self.is_in_spans(key, from) {
            return Some(from);
        }
        let mut bound = from.get();
        'spans: loop {
            let Some(next) = first_above(&self.spans, Ts::new(bound)) else {
                return None;
            };
            if cover(next.1, key) {
                return Some(next.0);
            }
            bound = next.0.get();
        }
    }

    /// Notes a read of one key.
    pub fn add_key(&mut self, key: &Key, at: Ts) -> Result<(), Fault>
        ensures ok { OnOk result (AddsRead self.old self.new (key_test key.now) at) }
        ensures same { OnErr result (SameReads self.old self.new) }
        ensures err { IfErr result (λ e. e ≡ Fault.OutOfMemory) }
    {
        if self.read_alone(key, at).is_some() {
            return Ok(());
        }
        self.points.insert(key.clone()?, at)?;
        Ok(())
    }

    /// Notes a read of a span.
    pub fn add_span(&mut self, alloc: Global, span: Span, at: Ts) -> Result<(), Fault>
        ensures ok { OnOk result (AddsRead self.old self.new (span_covers span) at) }
        ensures same { OnErr result (SameReads self.old self.new) }
        ensures err { IfErr result (λ e. e ≡ Fault.OutOfMemory) }
    {
        push_at(alloc, &mut self.spans, at, span)?;
        Ok(())
    }
}

// Adds a span to those at a timestamp.
fn push_at(
    alloc: Global,
    spans: &mut BTreeMap<Ts, Items<Span>>,
    at: Ts,
    span: Span,
) -> Result<(), Fault>
    ensures ok { OnOk result ((q : ℕ) → tree.get nat_cmp spans.new q
        ≡ cond (at == q) (Some (unwrap_or (tree.get nat_cmp spans.old at) [] ++ span
        ∷ [])) (tree.get nat_cmp spans.old q)) }
    ensures same { OnErr result ((q : ℕ) → tree.get nat_cmp spans.new q ≡ tree.get nat_cmp spans.old q) }
    ensures err { IfErr result (λ e. e ≡ Fault.OutOfMemory) }
{
    if let Some(there) = spans.get_mut(&at) {
        there.push(span)?;
        return Ok(());
    }
    let mut first = Items::new(alloc);
    first.push(span)?;
    spans.insert(at, first)?;
    Ok(())
}
