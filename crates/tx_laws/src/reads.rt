//! What reads find once a commit was told.
ghost use Rattle.std.specs.Prelude.{◌≡◌, ℕ, ◌≤◌, List, Option, Some};
ghost use Rattle.tx_types.specs.Keys.{IsVisible};
ghost use Rattle.tx_types.specs.declared.key.Key.{Key};
ghost use Rattle.tx_types.specs.declared.mutation.Mutation.{Mutation};
ghost use Rattle.tx_types.specs.declared.value.Value.{Value};
ghost use Rattle.tx_machine.specs.Keys.{mutation_at};
ghost use Rattle.tx_machine.specs.Machine.{table_of};
ghost use Rattle.tx_core.specs.Histories.{History, set_at, Among};
ghost use Rattle.tx_core.specs.Shadow.{shadow};
ghost use Rattle.tx_core.specs.Worlds.{IsWorldRun};
ghost use Rattle.tx_core.specs.declared.event.Event.TheVariants.{Took};
ghost use Rattle.tx_core.specs.declared.event.Taken.{Taken};
ghost use Rattle.tx_laws.specs.Told.{IsTold, Says, FindsAtLeast};

/// Whoever was told that a transaction is committed at c finds, in each read at c or above that is
/// answered, what the transaction left on the key, or what a later commit left there. It is so
/// whichever of the two came first, since no commit comes at or below a read of its keys.
pub fn commits_are_read()
    ensures { (bounds : List Key) (h : History) (t c r : ℕ) (k : Key) (m : Mutation) (x : Taken) (found : Option Value)
        → IsWorldRun bounds h → IsTold h t c → mutation_at (set_at h t) k ≡ Some m → IsVisible m
        → Among h (Took x) → Says x.body x.answer k r found → c ≤ r
        → FindsAtLeast (table_of (shadow h)).row k c r m found }
{}
