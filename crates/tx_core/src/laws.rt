//! Laws of histories, which callers may cite.
ghost use Rattle.std.specs.Prelude.{◌≡◌, ◌≢◌, ◌<◌, ◌≤◌, ◌++◌, ◌∷◌, ℕ, List, [], Some, None, length};
ghost use Rattle.tx_core.specs.Allowed.{Allowed};
ghost use Rattle.tx_core.specs.Decisions.{accepted, greatest, decided};
ghost use Rattle.tx_core.specs.Histories.{History, declared, set_at, Among, Begins};
ghost use Rattle.tx_core.specs.Laws.{WasToldOf, IsLockOf, WasPrewritten, HasPrewritten, HadAsyncLock, greatest_of, DecidedBefore};
ghost use Rattle.tx_core.specs.declared.event.Declaration.{Declaration};
ghost use Rattle.tx_core.specs.declared.event.Event.TheVariants.{Drawn, Answered};
ghost use Rattle.tx_core.specs.declared.event.Outcome.TheVariants as outcome;
ghost use Rattle.tx_core.specs.Recording.{AllOfSeats, events_of};
ghost use Rattle.tx_core.specs.Worlds.{IsWorldRun};
ghost use Rattle.tx_machine.specs.Keys.{mutation_at};
ghost use Rattle.tx_machine.specs.Machine.{Done, Commits, Newest, table_of};
ghost use Rattle.tx_types.specs.Keys.{IsVisible};
ghost use Rattle.tx_types.specs.declared.mutation.Mutation.{Mutation};
ghost use Rattle.tx_core.specs.Shadow.{shadow};
ghost use Rattle.tx_plan.specs.declared.body.Body.{Body};
ghost use Rattle.tx_plan.specs.declared.body.Prewrite.{Prewrite};
ghost use Rattle.tx_types.specs.declared.key.Key.{Key};
ghost use Rattle.tx_types.specs.declared.lock.LockInfo.{LockInfo};
ghost use Rattle.tx_types.specs.declared.mutation.Fate.TheVariants.{Committed};

/// What is allowed after a history is allowed after each world run that begins with it: so a
/// request that was allowed when it was sent is allowed whenever it is taken, however late.
pub fn allowed_stays()
    ensures { (bounds : List Key) (more h : History) (body : Body) → IsWorldRun bounds (more ++ h) → Allowed h body
        → Allowed (more ++ h) body }
{}

/// Each lock that an answer told of is what `IsLockOf` says, from then on: its transaction is
/// declared, its primary and its list are the declared ones, and its mode and minimum are those
/// that were accepted. That stays so.
pub fn told_lock()
    ensures is { (bounds : List Key) (h : History) (info : LockInfo) → IsWorldRun bounds h → WasToldOf h info
        → IsLockOf h info }
    ensures stays { (bounds : List Key) (l h : History) (info : LockInfo) → IsWorldRun bounds h → Begins l h
        → IsLockOf l info → IsLockOf h info }
{}

/// So is the lock of each prewrite that was accepted, and its minimum is the one that
/// the answer named.
pub fn prewritten_lock()
    ensures { (bounds : List Key) (h : History) (b : Prewrite) (m : ℕ) → IsWorldRun bounds h → WasPrewritten h b m
        → HasPrewritten h b m }
{}

/// Where each key of a transaction had an async lock, whenever that was, the transaction is
/// committed at the greatest of their minimums, and its session may answer so.
pub fn decided_async()
    ensures decided { (bounds : List Key) (h : History) (t : ℕ) (min : Key → ℕ) → IsWorldRun bounds h → set_at h t ≢ []
        → ((k : Key) → mutation_at (set_at h t) k ≢ None → HadAsyncLock h t k (min k))
        → decided h t ≡ Done (Committed (greatest_of min (set_at h t))) }
    ensures accepted { (bounds : List Key) (h : History) (t : ℕ) (min : Key → ℕ) → IsWorldRun bounds h → set_at h t ≢ []
        → ((k : Key) → mutation_at (set_at h t) k ≢ None → HadAsyncLock h t k (min k))
        → greatest (accepted h t) (set_at h t) ≡ Some (greatest_of min (set_at h t)) }
{}

/// What was decided comes first, whoever was told of it (strong snapshot isolation): a number that
/// is drawn after a commit was decided lies at or above it; who begins there reads what it left or
/// what a later commit left, and who declares with such a number commits above it. What a session
/// has answered as committed was decided before.
pub fn decisions_come_first()
    ensures starts { (bounds : List Key) (h : History) (p u c : ℕ) → IsWorldRun bounds h → DecidedBefore h p u c
        → c ≤ p }
    ensures reads { (bounds : List Key) (h : History) (p u c : ℕ) (k : Key) (m : Mutation) → IsWorldRun bounds h
        → DecidedBefore h p u c → Commits (table_of (shadow h)).row k u c m → IsVisible m
        → (n : Mutation) × (seen : Newest (table_of (shadow h)).row k p n) × (c ≤ seen.at) }
    ensures commits { (bounds : List Key) (h : History) (t u c e : ℕ) (d : Declaration) → IsWorldRun bounds h
        → declared h t ≡ Some d → DecidedBefore h d.drawn u c → decided h t ≡ Done (Committed e) → c < e }
    ensures answered { (bounds : List Key) (l h : History) (seat p u c : ℕ) → IsWorldRun bounds h
        → Begins (Drawn seat p ∷ l) h → Among l (Answered u (outcome.Committed c)) → DecidedBefore h p u c }
{}

/// A transaction that its session answered as read-only has declared nothing, and never will.
pub fn read_only_stays()
    ensures { (bounds : List Key) (h : History) (t : ℕ) → IsWorldRun bounds h → Among h (Answered t outcome.ReadOnly)
        → declared h t ≡ None }
{}

/// Where each event of a history is of a seat below n, the history is as long as the parts of
/// these seats together.
pub fn parts_make_the_whole()
    ensures { (n : ℕ) (h : History) → AllOfSeats n h → length h ≡ events_of n h }
{}
