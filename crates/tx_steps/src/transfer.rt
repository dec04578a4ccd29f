//! What a transfer moves.
use tx_types::Mode;

/// The most that a transfer may move; the least is 1.
pub const MAX_AMOUNT: u64 = 1_000_000_000_000;

/// What a transfer moves: so much from one key to another, and how its transaction commits. The
/// keys of one that a line says are not the same.
#[derive(Clone, Copy, Debug, Drop)]
pub struct Transfer<S> {
    pub from: S,
    pub to: S,
    pub amount: u64,
    pub mode: Mode,
}
