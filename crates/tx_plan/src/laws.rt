//! Laws of the case tables, which callers may cite.
ghost use Rattle.std.specs.Prelude.{◌≡◌, ◌+◌, ◌≤◌, ℕ, max, Some};
ghost use Rattle.tx_plan.specs.declared.body.Body.{Body};
ghost use Rattle.tx_plan.specs.declared.body.Prewrite.{Prewrite};
ghost use Rattle.tx_plan.specs.declared.key_change.KeyChange.{KeyChange};
ghost use Rattle.tx_plan.specs.declared.key_change.NewLock.{NewLock};
ghost use Rattle.tx_plan.specs.declared.answer.Answer.{Answer};
ghost use Rattle.tx_plan.specs.Cells.{Cells, Region};
ghost use Rattle.tx_plan.specs.Own.{OwnRollback, leave_rollback};
ghost use Rattle.tx_plan.specs.Answers.{floor_in, Answers, AnswersFrom};
ghost use Rattle.tx_plan.specs.Changes.{changed, Applies, CanPut, after_put};
ghost use Rattle.tx_plan.specs.Sound.{IsSound};
ghost use Rattle.tx_plan.specs.cases.Collect.{kept};
ghost use Rattle.tx_plan.specs.cases.Prewrite.{least_minimum};

/// Leaving a rollback that stands already changes no record.
pub fn rollback_left_again_stays()
    ensures { (cells : Cells) (t q : ℕ) → OwnRollback cells.write t → (leave_rollback cells t).write q ≡ cells.write q }
{}

/// What a region answers with the least minimum above a mark is an answer of the tables, where the
/// mark covers what was read in the region, neither the mark nor what the region loaded lies above
/// the last number drawn, and a floor lies at most one above that.
pub fn least_minimum_is_free()
    ensures { (mark : ℕ) (region : Region) (loaded top : ℕ) (body : Body) (answer : Answer) → region.max_read ≤ mark
        → mark ≤ top → loaded ≤ top → floor_in body ≤ top + 1 → AnswersFrom mark region loaded body answer
        → Answers region loaded top body answer }
{}

/// The check of an insert, which is a read at its transaction's start, leaves the least minimum as
/// it was: that lies above the start anyway. So it may be taken before or after the check has
/// raised the mark.
pub fn check_leaves_the_minimum()
    ensures { (mark : ℕ) (body : Prewrite) → least_minimum (max mark body.start) body ≡ least_minimum mark body }
{}

/// What the cells of a key always meet stays so through each change that applies, each prewrite and
/// each collection.
pub fn cells_stay_sound()
    ensures change { (cells : Cells) (change : KeyChange) → IsSound cells → Applies cells change
        → IsSound (changed cells change) }
    ensures prewrite { (cells : Cells) (body : Prewrite) (new : NewLock) → IsSound cells → CanPut cells body new
        → IsSound (after_put cells body (Some new)) }
    ensures collection { (cells : Cells) (safe : ℕ) → IsSound cells → IsSound (kept cells safe) }
{}
