//! The theorem over every run: whatever events a legal run has, what is answered is what the
//! one-step machine says. World runs are legal, and it is not about nothing: runs that exist.
ghost use Rattle.std.specs.Prelude.{◌≡◌, ℕ, List};
ghost use Rattle.tx_core.specs.Decisions.{decided};
ghost use Rattle.tx_core.specs.EventSteps.{Explains};
ghost use Rattle.tx_core.specs.Happens.{Happens, CommitsInTwoPhases, CommitsByLatePrewrite, CommitsAfterFallBack, PushesMinimum, AbortsByStatus, AbortsBySecondary, OverlapsRollback, FindsCommit, FindsByStatus, DropsRecord, ReadsBesideCollection, CommitsInsert, RefusesInsert, InsertsOverDelete, ScanMeetsLock};
ghost use Rattle.tx_core.specs.Histories.{History};
ghost use Rattle.tx_core.specs.Shadow.{shadow, AllTrue};
ghost use Rattle.tx_core.specs.Truth.{HasEnded};
ghost use Rattle.tx_core.specs.Worlds.{IsWorldRun};
ghost use Rattle.tx_core.specs.Legal.{IsLegalRequest, IsLegalRun};
ghost use Rattle.tx_core.specs.Allowed.{Allowed};
ghost use Rattle.tx_plan.specs.declared.body.Body.{Body};
ghost use Rattle.tx_machine.specs.declared.step.Step.{Step};
ghost use Rattle.tx_machine.specs.Machine.{IsRun, Done, table_of};
ghost use Rattle.tx_types.specs.declared.key.Key.{Key};
ghost use Rattle.tx_types.specs.declared.mutation.Fate.{Fate};

/// Of every legal run, whatever the bounds between the regions, there are steps of the one-step
/// machine that explain it: of each event all its own and no others, in the order of the events,
/// and each answer is true of the machine's table where it stands. They are a run of the machine;
/// and what is decided of a transaction, which is what a session or a resolver may say of it, is
/// how it has ended there.
pub fn every_run()
    ensures { (bounds : List Key) (events : History) → IsLegalRun bounds events → (steps : List Step)
        × Explains steps events × IsRun steps
        × ((t : ℕ) (end : Fate) → decided events t ≡ Done end → HasEnded (table_of steps) t end) }
{}

/// The world runs are such: what the protocol asks of its events, which its calls keep, is more
/// than the theorem needs. So is what it asks of a request.
pub fn world_runs_are_legal()
    ensures runs { (bounds : List Key) (events : History) → IsWorldRun bounds events → IsLegalRun bounds events }
    ensures requests { (events : History) (body : Body) → Allowed events body → IsLegalRequest events body }
{}

/// The steps of a legal run can be read off its events one by one: those that `shadow` gives are
/// such ones. So what holds of them holds of the run.
pub fn shadow_is_the_run()
    ensures steps { (bounds : List Key) (events : History) → IsLegalRun bounds events
        → Explains (shadow events) events }
    ensures run { (bounds : List Key) (events : History) → IsLegalRun bounds events → IsRun (shadow events) }
    ensures answers { (bounds : List Key) (events : History) → IsLegalRun bounds events → AllTrue events }
    ensures decisions { (bounds : List Key) (events : History) → IsLegalRun bounds events
        → (t : ℕ) (end : Fate) → decided events t ≡ Done end → HasEnded (table_of (shadow events)) t end }
{}

/// World runs exist, and all of this happens in them: a commit in two phases; an async commit that
/// a late prewrite decides; a fall back to two phases; a push; rollbacks by a resolver; a commit
/// over a rollback; a decision that is found again after its answer was lost; a collection, and
/// readers beside it; an insert that commits, one that is refused and one over a deleted key; a
/// scan that meets a lock.
pub fn runs_exist()
    ensures two_phase { Happens CommitsInTwoPhases }
    ensures late_prewrite { Happens CommitsByLatePrewrite }
    ensures fall_back { Happens CommitsAfterFallBack }
    ensures push { Happens PushesMinimum }
    ensures status { Happens AbortsByStatus }
    ensures secondary { Happens AbortsBySecondary }
    ensures overlap { Happens OverlapsRollback }
    ensures commit_again { Happens FindsCommit }
    ensures told_again { Happens FindsByStatus }
    ensures collection { Happens DropsRecord }
    ensures beside_collection { Happens ReadsBesideCollection }
    ensures insert { Happens CommitsInsert }
    ensures refused_insert { Happens RefusesInsert }
    ensures insert_again { Happens InsertsOverDelete }
    ensures scan { Happens ScanMeetsLock }
{}
