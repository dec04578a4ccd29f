//! TxnHeartBeat: a transaction's lock lives longer.
ghost use Rattle.std.specs.Prelude.{◌≡◌, ℕ, None};
ghost use Rattle.tx_plan.specs.Cells.{Cells};
ghost use Rattle.tx_plan.specs.Changes.{changed, Applies};
ghost use Rattle.tx_plan.specs.RealChanges.{Makes};
ghost use Rattle.tx_plan.specs.Plans.{answer_with};
ghost use Rattle.tx_plan.specs.Views.{Shows, info_on};
ghost use Rattle.tx_plan.specs.cases.TxnHeartBeat.{AnswersTxnHeartBeat};
ghost use Rattle.tx_plan.specs.Answers.{leaves_on};
ghost use Rattle.tx_plan.specs.declared.body.Body.TheVariants as asked;

use crate::answer::Answer;
use crate::body::TxnHeartBeat;
use crate::key_change::KeyChange;
use crate::plan::own::own_lock;
use crate::planned_answer::Plan;
use crate::view::TxnView;
use tx_types::Ts;

/// The answer to a TxnHeartBeat that sees this of its key, in a region that collected up to
/// `collected`, and the change: a time to live never falls, and one that does not rise is no
/// change. `BelowSafePoint` where the transaction started below `collected`, `TxnLockNotFound`
/// where it has no lock on the key.
pub fn plan_txn_heart_beat(view: &TxnView, collected: Ts, body: &TxnHeartBeat) -> Plan
    ensures answers { (cells : Cells) (commit : ℕ) → Shows cells body.now.start commit view.now
        → AnswersTxnHeartBeat cells collected body.now (answer_with (info_on cells body.now.key) result.answer) }
    ensures leaves { (cells : Cells) (commit : ℕ) → Shows cells body.now.start commit view.now
        → changed cells result.change ≡ leaves_on cells (asked.TxnHeartBeat body.now)
        (answer_with (info_on cells body.now.key) result.answer) }
    ensures applies { (cells : Cells) (commit : ℕ) → Shows cells body.now.start commit view.now
        → Applies cells result.change }
    ensures makes { (cells : Cells) (commit : ℕ) → Shows cells body.now.start commit view.now
        → Makes cells result.change }
    ensures unread { result.read ≡ None }
{
    if body.start < collected {
        return Plan::given(Answer::BelowSafePoint { safe: collected });
    }
    match own_lock(view, body.start) {
        Some(lock) if lock.ttl < body.ttl => {
            Plan::changes(Answer::Ttl(body.ttl), KeyChange::Ttl(body.ttl))
        }
        Some(lock) => Plan::given(Answer::Ttl(lock.ttl)),
        None => Plan::given(Answer::TxnLockNotFound),
    }
}
