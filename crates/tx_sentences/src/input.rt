//! What the lines say that a command reads.

/// What the lines say that a command reads.
#[derive(Clone, Copy, Debug, PartialEq, Eq)]
pub enum InputKind {
    /// Steps of sessions, in one thread.
    Script,
    /// Steps of sessions on threads, seeds and transfers.
    Run,
    /// Steps of the machine.
    Trace,
    /// Transactions of any store.
    History,
}

impl InputKind {
    /// The command that reads them, for who has to find it.
    pub(crate) fn command(self) -> &'static str {
        match self {
            InputKind::Script => "txkv simulate",
            InputKind::Run => "txkv run",
            InputKind::Trace => "txkv check",
            InputKind::History => "txkv import",
        }
    }
}
