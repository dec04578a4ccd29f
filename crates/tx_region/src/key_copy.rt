//! A copy of what a request sees of its key, and what is planned of it, as values of their own:
//! each is a try that stands at that.
ghost use Rattle.std.specs.Prelude.{◌≡◌};
ghost use Rattle.tx_region.specs.KeyPlans.{IsCopyFor, IsPlanFor};

use crate::attempt::Attempt;
use std::marker::Model;
use tx_journal::{JournalId, Request};

/// A copy of what a request sees of its key in a region, which stays so long as the key is not
/// changed: the answer can be planned of it while others have the region. It is known to be of that
/// region, as it was after the events that it tells of.
#[derive(Drop)]
pub struct KeyCopy<J: JournalId> {
    /// A try that has a copy.
    pub(crate) attempt: Attempt<J>,
}

impl<J: JournalId> Model for KeyCopy<J> {
    ghost use Rattle.std.specs.Prelude.{IsSome, unwrap_or};
    ghost use Rattle.tx_region.specs.KeyPlans.{Copied};
    ghost use Rattle.tx_region.specs.Attempts.{no_copy};

    ghost Value = { Copied };

    ghost view = { λ c. unwrap_or c.attempt.copy no_copy };

    ghost invariant = { λ c. IsSome c.attempt.copy };
}

/// What was planned of such a copy: the answer and the change of the case tables, for the copy and
/// its request.
#[derive(Drop)]
pub struct Planned<J: JournalId> {
    /// A try that has a plan.
    pub(crate) attempt: Attempt<J>,
}

impl<J: JournalId> Model for Planned<J> {
    ghost use Rattle.std.specs.Prelude.{IsSomeAnd, unwrap_or};
    ghost use Rattle.tx_region.specs.KeyPlans.{PlanOf, IsSomePlan};
    ghost use Rattle.tx_region.specs.Attempts.{no_plan};

    ghost Value = { PlanOf };

    ghost view = { λ p. unwrap_or p.attempt.plan no_plan };

    ghost invariant = { λ p. IsSomeAnd p.attempt.plan IsSomePlan };
}

impl<J: JournalId> KeyCopy<J> {
    /// What the region makes of the request for which the copy was made.
    pub fn plan(self, request: &Request<J>) -> Planned<J>
        requires { IsCopyFor request.now self }
        ensures plan { IsPlanFor request.now result }
        ensures same { (result.region ≡ self.region) × (result.events ≡ self.events) }
    {
        let KeyCopy { attempt } = self;
        let mut attempt = attempt;
        attempt.plan(request);
        Planned { attempt }
    }
}
