//! Scan: the first keys of a range that have a value at a timestamp, or the lock
//! that stops the read.
ghost use Rattle.std.specs.Prelude.{◌≡◌, ◌⊎◌, ℕ, None, MatchOption, IfOk, IfErr};
ghost use Rattle.tx_types.specs.declared.key.Key.{Key};
ghost use Rattle.tx_types.specs.Keys.{key_le};
ghost use Rattle.tx_plan.specs.Cells.{Cells, Region};
ghost use Rattle.tx_plan.specs.Plans.{answer_with, with_read};
ghost use Rattle.tx_plan.specs.Refusals.{MayRead, RefusesScan};
ghost use Rattle.tx_plan.specs.Walks.{IsWalk};
ghost use Rattle.tx_plan.specs.cases.Scan.{AnswersScan, MeetsLock, GivesRows};
ghost use Rattle.tx_plan.specs.Answers.{leaves};
ghost use Rattle.tx_plan.specs.declared.body.Body.TheVariants as asked;

use crate::answer::Answer;
use crate::body::Scan;
use crate::key_change::KeyChange;
use crate::plan::reads::{is_blocked, read_refusal};
use crate::planned_answer::{Plan, PlannedAnswer};
use crate::view::ReadView;
use crate::walk::ReadWalk;
use std::alloc::Global;
use tx_types::{Fault, KeyValue, KeyValues, Ts};

/// Walks the keys of a scan's range, up to its end, a lock that blocks the read, or `limit` rows.
/// The walk begins with the first key of the range. `OutOfMemory` where there is no room for the
/// rows or to tell of the lock.
pub fn scan_walk<W: ReadWalk + Drop>(
    alloc: Global,
    mut walk: W,
    body: &Scan,
) -> Result<Answer, Fault>
    requires { IsWalk (W.cells walk) (key_le body.now.from) (W.rest walk) }
    ensures answer { IfOk result (λ answer. MeetsLock (W.cells walk) body.now answer
        ⊎ GivesRows (W.cells walk) body.now answer) }
    ensures err { IfErr result (λ e. e ≡ Fault.OutOfMemory) }
{
    let mut rows = KeyValues::new(alloc);
    'keys: while rows.as_slice().len() < body.limit as usize {
        let Some((key, view)) = walk.next(alloc, body.at)? else {
            break;
        };
        if key >= body.to {
            break;
        }
        let ReadView { lock, value } = view;
        if is_blocked(&lock, body.at, &body.bypass) {
            let info = walk.lock_info(alloc, &key)?;
            return Ok(PlannedAnswer::KeyIsLocked.with_lock(info));
        }
        if let Some(value) = value {
            rows.push(KeyValue { key, value })?;
        }
    }
    Ok(Answer::Rows(rows))
}

/// Why a Scan is refused before it looks at a key, in a region with this safe point whose seat
/// loaded `loaded`: `BelowSafePoint` where the read lies below the safe point, `FutureTimestamp`
/// where it lies above `loaded`.
pub fn scan_refusal(safe: Ts, loaded: Ts, body: &Scan) -> Option<Answer>
    ensures { MatchOption result (MayRead safe loaded body.now.at) (λ a. RefusesScan safe loaded body.now a) }
{
    read_refusal(body.at, safe, loaded)
}

/// The answer to a Scan that was not refused, where the families answered this. The read counts,
/// also where a lock stopped it.
pub fn plan_scan(answer: Answer, body: &Scan) -> Plan
    ensures answers { (cells : Key → Cells) (safe loaded : ℕ) → MayRead safe loaded body.now.at
        → MeetsLock cells body.now answer ⊎ GivesRows cells body.now answer
        → AnswersScan cells safe loaded body.now (answer_with None result.answer) }
    ensures leaves { (cells : Key → Cells) → MeetsLock cells body.now answer ⊎ GivesRows cells body.now answer
        → (region : Region) → leaves region (asked.Scan body.now) (answer_with None result.answer)
        ≡ with_read region result.read }
    ensures same { result.change ≡ KeyChange.Nothing }
{
    Plan {
        answer: PlannedAnswer::Given(answer),
        change: KeyChange::Nothing,
        read: Some(body.at),
    }
}
