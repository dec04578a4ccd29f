//! What a read at a timestamp found.
ghost use Rattle.std.specs.Prelude.{◌≡◌, ℕ, List, IfOk, IfErr};
ghost use Rattle.tx_transaction.specs.declared.state.Miss.TheVariants.{Fault as Short};
ghost use Rattle.tx_types.specs.declared.key.Key.{Key};
ghost use Rattle.tx_core.specs.Histories.{History};
ghost use Rattle.tx_reader.specs.Readers.{IsKeyAnswer, IsPartAnswer, ReadsOn, ScansAt};
ghost use Rattle.tx_plan.specs.declared.answer.Answer.TheVariants.{Rows};
ghost use Rattle.tx_update.specs.Reads.{SeesOn};
ghost use Rattle.tx_update.specs.Stops.{NamesKey};
ghost use Rattle.tx_kv.specs.Views.{IsViewStop};

use tx_client::Miss;
use tx_core::Answer;
use tx_types::{KeyValues, Value};
use tx_update::{Stop, stop_by};

/// The value that a read of a key found.
pub(crate) fn found_in(answered: Result<Answer, Miss>) -> Result<Option<Value>, Stop>
    ensures finds { IfOk result (λ found. (bounds : List Key) (h : History) (at : ℕ) (key : Key)
        → IfOk answered (ReadsOn bounds h at key) → SeesOn bounds h at key found) }
    ensures err { IfErr result (λ s. (h : History) (seen at : ℕ) (key : Key) → IfOk answered (IsKeyAnswer h seen at key)
        → IfErr answered (λ m. m ≡ Short) → IsViewStop h seen at s × NamesKey key s) }
{
    match answered? {
        Answer::Found(value) => Ok(Some(value)),
        Answer::Nothing => Ok(None),
        refusal => Err(stop_by(refusal)),
    }
}

/// The rows that a scan found.
pub(crate) fn rows_in(answered: Result<Answer, Miss>) -> Result<KeyValues, Stop>
    ensures finds { IfOk result (λ rows. (bounds : List Key) (h : History) (at : ℕ) (from to : Key) (limit : ℕ)
        → IfOk answered (ScansAt bounds h at from to limit) → ScansAt bounds h at from to limit (Rows rows)) }
    ensures err { IfErr result (λ s. (h : History) (seen at : ℕ) → IfOk answered (IsPartAnswer h seen at)
        → IfErr answered (λ m. m ≡ Short) → IsViewStop h seen at s) }
{
    match answered? {
        Answer::Rows(rows) => Ok(rows),
        refusal => Err(stop_by(refusal)),
    }
}
