//! The state of a job.
ghost use Rattle.std.specs.Prelude.{◌≡◌};
ghost use Rattle.tx_run.specs.States.{is_transfer};

/// A free seat, a session that has begun, or a transfer on its way; taken out while one acts.
#[derive(Drop)]
pub(crate) enum JobState<F, L, M> {
    Free(F),
    Live(L),
    Transfer(M),
    Taken,
}

impl<F, L, M> JobState<F, L, M> {
    /// Whether a transfer is on its way.
    pub fn is_transfer(&self) -> bool
        ensures { result ≡ is_transfer self.now }
    {
        match self {
            JobState::Transfer(_) => true,
            JobState::Free(_) | JobState::Live(_) | JobState::Taken => false,
        }
    }
}
