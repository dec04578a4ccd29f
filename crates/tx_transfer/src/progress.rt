//! What comes of a step of a transfer, and what it does next.

/// How often one transfer resolves a lock, and how often it draws again.
pub(crate) const TRIES: u32 = 16;

/// What comes of a request, and of a step.
#[derive(Clone, Copy, Debug, PartialEq, Eq)]
pub enum TransferProgress {
    /// It goes on.
    More,
    /// It is over: the session is to be finished.
    Over,
    /// Its seat's ticks are spent.
    Spent,
    /// Memory was refused to the session.
    OutOfMemory,
}

/// What a transfer does next.
#[derive(Clone, Copy, Debug, PartialEq, Eq)]
pub(crate) enum TransferPhase {
    ReadFrom,
    ReadTo,
    Prewrite,
    Commit,
    Abort,
}
