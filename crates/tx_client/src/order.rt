//! The order of commits, as sessions see it.
ghost use Rattle.std.specs.Prelude.{◌≡◌, ℕ, ◌<◌, ◌≤◌, List};
ghost use Rattle.tx_types.specs.declared.key.Key.{Key};
ghost use Rattle.tx_types.specs.declared.mutation.Fate.TheVariants as fate;
ghost use Rattle.tx_types.specs.declared.mutation.Mutation.{Mutation};
ghost use Rattle.tx_types.specs.Keys.{IsVisible};
ghost use Rattle.tx_machine.specs.Machine.{Done, Commits, Newest, table_of};
ghost use Rattle.tx_core.specs.declared.event.Declaration.{Declaration};
ghost use Rattle.tx_core.specs.Histories.{History, Begins};
ghost use Rattle.tx_core.specs.Decisions.{decided};
ghost use Rattle.tx_core.specs.Shadow.{shadow};
ghost use Rattle.tx_core.specs.Worlds.{IsWorldRun};
ghost use Rattle.tx_journal.specs.Known.{Known};
ghost use Rattle.tx_client.specs.Calls.{BeganAt, DeclaredWith};

/// Where what a seat knows decides that a transaction is committed, as where it was told so, and
/// then its session declares, the session's own commit, if it comes to one, lies above: whatever
/// the commit's kind, and whatever happens between.
pub fn commits_above()
    ensures { (bounds : List Key) (old new : Known) (d : Declaration) (h : History) (u c e : ℕ)
        → DeclaredWith bounds old d new → Begins new.events h → IsWorldRun bounds h
        → decided old.events u ≡ Done (fate.Committed c) → decided h d.start ≡ Done (fate.Committed e) → c < e }
{}

/// Where it knows so and then begins a session, that starts at or above the commit, and reads what
/// it left or what a later commit left: strong snapshot isolation.
pub fn starts_above()
    ensures starts { (bounds : List Key) (old new : Known) (t : ℕ) (h : History) (u c : ℕ) → BeganAt bounds old t new
        → Begins new.events h → IsWorldRun bounds h → decided old.events u ≡ Done (fate.Committed c) → c ≤ t }
    ensures reads { (bounds : List Key) (old new : Known) (t : ℕ) (h : History) (u c : ℕ) (k : Key) (m : Mutation)
        → BeganAt bounds old t new → Begins new.events h → IsWorldRun bounds h
        → decided old.events u ≡ Done (fate.Committed c) → Commits (table_of (shadow h)).row k u c m → IsVisible m
        → (n : Mutation) × (seen : Newest (table_of (shadow h)).row k t n) × (c ≤ seen.at) }
{}
