//! What a script is asked for.
use tx_types::Mode;

/// The most keys, and the most regions: each key is a letter.
pub const MAX_LETTERS: u32 = 26;

/// How the transactions of a script commit.
#[derive(Clone, Copy, Debug, PartialEq, Eq)]
pub enum ModeChoice {
    /// All of them so.
    Only(Mode),
    /// Some in two phases, some asynchronously.
    Both,
}

/// What a script is asked for. The same settings give the same script.
#[derive(Clone, Copy, Debug, PartialEq, Eq)]
pub struct Settings {
    pub seed: u64,
    /// How many lines it has.
    pub steps: u64,
    /// How many sessions live at once, at most.
    pub sessions: usize,
    /// How many regions there are: 1 to `MAX_LETTERS`.
    pub regions: u32,
    /// How many keys there are: 1 to `MAX_LETTERS`.
    pub keys: u32,
    /// How many of a hundred requests do not simply arrive.
    pub faults: u32,
    pub modes: ModeChoice,
}
