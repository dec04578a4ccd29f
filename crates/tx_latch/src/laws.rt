//! Laws of latches, which callers may cite.
ghost use Rattle.std.specs.Prelude.{◌≡◌, ℕ, List, ◌∷◌, ◌++◌, Contains};
ghost use Rattle.tx_latch.specs.Asked.{Command, granted};

/// No two granted commands share a slot: two that have one in common are the same. The first that
/// asked is granted, and so is each that shares no slot with one that asked before it, whoever asks
/// later.
pub fn latches_keep_apart()
    ensures apart { (asked : List Command) (c d : Command) (slot : ℕ) → Contains (granted asked) c
        → Contains (granted asked) d
        → Contains c.slots slot → Contains d.slots slot → c ≡ d }
    ensures first { (c : Command) (later : List Command) → Contains (granted (c ∷ later)) c }
    ensures free { (before later : List Command) (c : Command)
        → ((e : Command) (slot : ℕ) → Contains before e → Contains e.slots slot → Contains c.slots slot → ⊥)
        → Contains (granted (before ++ c ∷ later)) c }
{}
