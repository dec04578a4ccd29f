//! What is asked of a script's run where it stands.

/// A question on a run.
#[derive(Clone, Copy, Debug, PartialEq, Eq)]
pub enum RunQuestion {
    /// Which requests are held under a name and were not delivered yet, where each goes, and which
    /// line sent it.
    Held,
    /// What a transaction that begins now would read, of the machine that commits each in one step.
    Machine,
    /// Which line was the last that was refused, told to wait or left without an answer, what it
    /// met, and which line had made that.
    Why,
}
