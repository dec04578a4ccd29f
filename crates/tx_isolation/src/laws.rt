//! Laws of what transactions read and commit.
ghost use Rattle.std.specs.Prelude.{◌≡◌, ◌++◌, ℕ, List, Option, Some};
ghost use Rattle.tx_types.specs.declared.key.Key.{Key};
ghost use Rattle.tx_types.specs.declared.mutation.Change.{Change};
ghost use Rattle.tx_types.specs.declared.mutation.Fate.{Fate};
ghost use Rattle.tx_machine.specs.declared.step.Step.{Step};
ghost use Rattle.tx_machine.specs.Machine.{Done, IsRun, table_of};
ghost use Rattle.tx_core.specs.Histories.{History};
ghost use Rattle.tx_core.specs.Shadow.{shadow};
ghost use Rattle.tx_core.specs.Worlds.{IsWorldRun};
ghost use Rattle.tx_journal.specs.Senders.{IsSender};
ghost use Rattle.tx_isolation.specs.Snapshots.{ReadsAtStart, AreApart};

use tx_journal::{JournalId, Reply, Request, Sender};

/// Each get of a session is of its start: where it comes to a value or to none, that is what the
/// session itself has entered of the key, or what the commits at or below its start leave there, in
/// every world run that begins with what its seat then knows. So all that a transaction reads is of
/// one prefix of the commits in the order of their numbers, whenever it asks and whatever commits
/// meanwhile. Of its scans `scans_see_whole` says the same.
pub fn sessions_read_one_snapshot<J: JournalId, S: Sender<Request<J>, Reply<J>>>()
    ensures { IsSender J.bounds S.fits S.sends S.keys_between → ReadsAtStart J.bounds S.sends }
{}

/// Of two transactions that commit one key, one has committed at or below the start of the other.
pub fn commits_are_apart()
    ensures { (bounds : List Key) (h : History) → IsWorldRun bounds h → AreApart (table_of (shadow h)).row }
{}

/// Who has ended keeps that end, and the write set.
pub fn ended_rows_stay()
    ensures { (more steps : List Step) → IsRun (more ++ steps) → (t : ℕ) (set : Option (List Change)) (end : Fate)
        → (table_of steps).row t ≡ Some record { changes = set; state = Done end }
        → (table_of (more ++ steps)).row t ≡ Some record { changes = set; state = Done end } }
{}
