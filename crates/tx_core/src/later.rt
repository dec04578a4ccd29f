//! Laws of the case tables, and of the regions of a history.
ghost use Rattle.std.specs.Prelude.{◌≢◌, ℕ, List};
ghost use Rattle.tx_types.specs.declared.key.Key.{Key};
ghost use Rattle.tx_plan.specs.declared.body.Body.{Body};
ghost use Rattle.tx_plan.specs.declared.answer.Answer.{Answer};
ghost use Rattle.tx_plan.specs.Cells.{Cells, Region, new_region};
ghost use Rattle.tx_plan.specs.Answers.{Answers, leaves};
ghost use Rattle.tx_core.specs.Histories.{History, left, Begins};
ghost use Rattle.tx_core.specs.Worlds.{IsWorldRun};
ghost use Rattle.tx_core.specs.Later.{AreRegular, IsLater, GoesOn};

/// What each region meets stays so, and it goes on: until its next collection each key's cells are
/// later ones, and no state of a key comes back.
pub fn regions_go_on()
    ensures first { AreRegular new_region }
    ensures stays { (region : Region) (loaded top : ℕ) (body : Body) (answer : Answer) → AreRegular region
        → Answers region loaded top body answer → AreRegular (leaves region body answer) }
    ensures goes_on { (region : Region) (loaded top : ℕ) (body : Body) (answer : Answer) → AreRegular region
        → Answers region loaded top body answer → GoesOn region (leaves region body answer) }
    ensures never_back { (a b c : Cells) → IsLater a b → IsLater b c → b ≢ c → a ≢ c }
{}

/// So it is of what a region's own events leave, in each world run.
pub fn histories_go_on()
    ensures { (bounds : List Key) (n : ℕ) (before now : History) → IsWorldRun bounds now → Begins before now
        → GoesOn (left before n) (left now n) }
{}
