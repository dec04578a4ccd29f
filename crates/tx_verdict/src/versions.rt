//! The versions of the keys of a recording.
ghost use Rattle.std.specs.Prelude.{◌≡◌, ◌+◌, ◌^◌, ◌<◌, IfSome, slice_range};
ghost use Rattle.tx_verdict.specs.Versions.{span_of, live_of};

use tx_history::Recorded;
use tx_recording::Span;

/// Which version a value is part of, counted from 1: 0 where it is part of none.
#[derive(Clone, Copy, Debug, PartialEq, Eq)]
pub struct Home {
    pub chain: u32,
    pub version: u32,
}

/// Why the writer of a version had the one before it there.
#[derive(Clone, Copy, Debug, PartialEq, Eq)]
pub enum Base {
    /// It saw it: this view.
    View(u32),
    /// This view has its first value, at this place: behind what it saw.
    Within(u32, u32),
    /// It is not known.
    Blind,
}

/// Two views of the same, of two that both put into the key.
#[derive(Clone, Copy, Debug, PartialEq, Eq)]
pub struct LostUpdate {
    pub first: u32,
    pub second: u32,
}

/// A value that a view has at a place.
#[derive(Clone, Copy, Debug, PartialEq, Eq)]
pub struct Shown {
    pub view: u32,
    pub place: u32,
}

/// Which transactions committed, and where a value of each was seen.
#[derive(Drop)]
pub struct Lives {
    pub live: Vec<bool>,
    pub shown: Vec<Shown>,
}

/// Versions that some transactions may have written. A key of its history is a chain of versions of
/// one key of the recording; a transaction past the recording's is a moment of the clock.
#[derive(Drop)]
pub struct Versions {
    pub recorded: Recorded,
    /// The key of each chain.
    pub names: Vec<u32>,
    /// The values that the versions hold.
    pub texts: Vec<u32>,
    /// Where those of each version lie, in the order of the writers.
    pub spans: Vec<Span>,
    /// By the number of the value.
    pub homes: Vec<Home>,
    /// Why the writer of each version had the one before it there, in the order of the writers.
    pub bases: Vec<Base>,
    /// Of each transaction, where a value of it was seen.
    pub shown: Vec<Shown>,
    /// Whether each transaction committed.
    pub live: Vec<bool>,
    /// When each moment is, by the recorder's clock.
    pub times: Vec<u64>,
}

/// No values.
pub const NO_SPAN: Span = Span { first: 0, count: 0 };

impl Versions {
    /// Where the values of a version of a chain lie: nowhere before the first.
    pub fn span_of(&self, chain: usize, version: usize) -> Span
        requires { version < 2 ^ 63 }
        ensures { result ≡ span_of self.now chain version }
    {
        if version == 0 {
            return NO_SPAN;
        }
        let head = match self.recorded.heads.get(chain) {
            Some(head) => *head as usize,
            None => 0,
        };
        match self.spans.get(head + (version - 1)) {
            Some(span) => *span,
            None => NO_SPAN,
        }
    }

    /// Why the writer of a version had the one before it there: the version at a place among those
    /// of a chain.
    pub fn base_of(&self, chain: usize, i: usize) -> Base {
        let Some(head) = self.recorded.heads.get(chain) else {
            return Base::Blind;
        };
        if i > self.bases.len() {
            return Base::Blind;
        }
        match self.bases.get(*head as usize + i) {
            Some(base) => *base,
            None => Base::Blind,
        }
    }

    /// Whether a transaction committed.
    pub fn is_live(&self, txn: u32) -> bool
        ensures { result ≡ live_of self.now txn }
    {
        match self.live.get(txn as usize) {
            Some(live) => *live,
            None => false,
        }
    }
}

/// The values of a span, if they are there.
pub fn text_at(texts: &[u32], span: Span) -> Option<&[u32]>
    ensures { IfSome result (λ xs. xs.now ≡ slice_range texts.now span.first (span.first + span.count)) }
{
    let upto = span.first as usize + span.count as usize;
    if upto > texts.len() {
        return None;
    }
    Some(&texts[span.first as usize..upto])
}
