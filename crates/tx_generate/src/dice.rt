//! Chance, from a seed.
ghost use Rattle.std.specs.Prelude.{◌<◌, length};

use rand_core::utils::NextWord;
use rand_pcg::Pcg32;

// Of the streams of the generator, the one that scripts are made of.
const STREAM: u64 = 54;

/// Numbers by chance: the same seed gives the same numbers.
#[derive(Drop)]
pub(crate) struct Dice {
    words: Pcg32,
}

impl Dice {
    pub(crate) fn new(seed: u64) -> Dice {
        Dice {
            words: Pcg32::new(seed, STREAM),
        }
    }

    /// A number below this one, which is not 0.
    pub(crate) fn below(&mut self, bound: u32) -> u32
        requires { 0 < bound }
        ensures { result < bound }
    {
        self.words.next_word() % bound
    }

    /// Whether it comes to pass, where so many of a hundred do.
    pub(crate) fn hits(&mut self, percent: u32) -> bool {
        self.below(100) < percent
    }

    /// One of these.
    pub(crate) fn pick<T: Copy>(&mut self, list: &[T]) -> T
        requires some { 0 < length list.now }
        requires few { length list.now < 1000 }
    {
        list[self.below(list.len() as u32) as usize]
    }
}
