//! A line as JSON, by `serde_json`.
ghost use Rattle.std.specs.Prelude.{◌≡◌, IfOk, IfErr, MatchResult, Some, None};
ghost use Rattle.serde_json.specs.View.{view};
ghost use Rattle.tx_text.specs.Parts.{json_of};

use crate::Broken;
use serde_json::Value;
use serde_json::error::Category;
use std::alloc::Global;
use tx_types::Cause;

/// The value of a line; the cause `Json` where it is no JSON value or not UTF-8.
///
/// `Memory` where a growth was refused.
#[inline(never)]
pub fn value_of(alloc: Global, line: &[u8]) -> Result<Result<Value, Cause>, Broken>
    ensures ok { IfOk result (λ found. MatchResult found (λ value. json_of line.now ≡ Some (view value))
        (λ cause. (cause ≡ Cause.Json) × (json_of line.now ≡ None))) }
    ensures err { IfErr result (λ why. why ≡ Broken.Memory) }
{
    match Value::from_slice(alloc, line) {
        Ok(value) => Ok(Ok(value)),
        Err(e) => if e.classify() == Category::Memory {
            Err(Broken::Memory)
        } else {
            Ok(Err(Cause::Json))
        },
    }
}
