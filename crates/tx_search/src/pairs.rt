//! Pairs of chains of one key, and what may be said of each.

use std::alloc::{AllocError, Global};
use tx_chains::number;

// How many pairs there may be.
const MOST_PAIRS: usize = 0x40_0000;

/// The pairs of chains of one key. A literal says of a pair which comes first: twice the number of
/// the pair where the one of the lesser place does, and one more where the other does.
#[derive(Drop)]
pub(crate) struct Pairs {
    // by chain: its first pair, with the next chain
    first: Vec<usize>,
    // by pair: the places of its chains
    ends: Vec<(u32, u32)>,
}

// How many chains of its key there are behind each, in all.
fn count_of(groups: &[(usize, usize)]) -> usize {
    let mut count = 0usize;
    for i in 0..groups.len() {
        let (_, upto) = groups[i];
        count = count.saturating_add(upto.saturating_sub(i).saturating_sub(1));
    }
    count
}

impl Pairs {
    // Adds the pairs of a chain with those behind it.
    fn add(&mut self, chain: usize, upto: usize) -> Result<(), AllocError> {
        self.first.push(self.ends.len())?;
        for other in chain.saturating_add(1)..upto {
            self.ends.push((number(chain), number(other)))?;
        }
        Ok(())
    }

    /// The pairs of chains, where it is known from where to where those of the key of each lie;
    /// none where they are too many.
    pub(crate) fn new(
        alloc: Global,
        groups: &[(usize, usize)],
    ) -> Result<Option<Pairs>, AllocError> {
        if count_of(groups) > MOST_PAIRS {
            return Ok(None);
        }
        let mut pairs = Pairs {
            first: Vec::new(alloc),
            ends: Vec::new(alloc),
        };
        for chain in 0..groups.len() {
            let (_, upto) = groups[chain];
            pairs.add(chain, upto)?;
        }
        Ok(Some(pairs))
    }

    /// How many pairs there are.
    pub(crate) fn len(&self) -> usize {
        self.ends.len()
    }

    // The number of the pair of two chains of one key, the one of the lesser place first.
    fn pair(&self, one: u32, other: u32) -> u32 {
        let Some(first) = self.first.get(one as usize) else {
            return 0;
        };
        let behind = (other as usize).saturating_sub(one as usize);
        number(first.saturating_add(behind).saturating_sub(1))
    }

    /// The literal that the one chain comes before the other.
    pub(crate) fn literal(&self, before: u32, behind: u32) -> u32 {
        if before < behind {
            self.pair(before, behind).saturating_mul(2)
        } else {
            self.pair(behind, before)
                .saturating_mul(2)
                .saturating_add(1)
        }
    }

    /// The places of the chains of a literal's pair, that of the lesser place first.
    pub(crate) fn ends(&self, literal: u32) -> Option<(u32, u32)> {
        let ends = self.ends.get(literal as usize / 2)?;
        Some(*ends)
    }

    /// The chain that comes first by a literal, and the other.
    pub(crate) fn chains(&self, literal: u32) -> Option<(u32, u32)> {
        let (one, other) = self.ends(literal)?;
        if literal % 2 == 0 {
            Some((one, other))
        } else {
            Some((other, one))
        }
    }
}

/// The literal that says the opposite.
pub(crate) fn opposite(literal: u32) -> u32 {
    if literal % 2 == 0 {
        literal.saturating_add(1)
    } else {
        literal.saturating_sub(1)
    }
}
