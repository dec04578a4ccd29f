//! What is written of a script that is played.

/// What is written of a script that is played.
#[derive(Clone, Copy, Debug, PartialEq, Eq)]
pub(crate) enum Asked {
    /// Its replies.
    Replies,
    /// After them the machine's steps of its run, and that they are one.
    Steps,
    /// The same, each step beside the number of the line during which it was taken.
    NumberedSteps,
}
