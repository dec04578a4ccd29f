//! The words of verdicts and causes, and the lines that say them.
ghost use Rattle.std.specs.Prelude.{◌≡◌, false, ◌∷◌, ◌++◌, [], IfOk, string_bytes};
ghost use Rattle.serde_json.specs.Data.{array};
ghost use Rattle.serde_json.specs.View.{view};
ghost use Rattle.serde_json.specs.Written.{has_float, compact_text};
ghost use Rattle.tx_text.specs.Texts.{line_text};
ghost use Rattle.tx_text.specs.Faults.{cause_word as word_of};
ghost use Rattle.tx_check.specs.Words.{words};

use serde_json::{Value, json};
use std::alloc::{AllocError, Global};
use tx_types::Cause;

/// What a check says of a trace, and so its last line.
#[derive(Clone, Copy, Debug, PartialEq, Eq)]
pub enum Verdict {
    /// Every line is a step that the machine makes.
    Yes,
    /// The step of this line is the first that the machine refuses.
    No(u64),
    /// This line is the first that is no step.
    Fault(u64, Cause),
}

// The word of a cause.
fn cause_word(cause: Cause) -> &'static str
    ensures { result.now ≡ word_of cause }
{
    match cause {
        Cause::Json => "json",
        Cause::Form => "form",
        Cause::Name => "name",
        Cause::Order => "order",
        Cause::Long => "long",
        Cause::Lines => "lines",
        Cause::Sessions => "sessions",
    }
}

fn verdict_value(alloc: Global, verdict: Verdict) -> Result<Value, AllocError>
    ensures { IfOk result (λ v. view v ≡ array (words verdict)) }
{
    match verdict {
        Verdict::Yes => json!(in alloc; ["check", "yes"]),
        Verdict::No(number) => json!(in alloc; ["check", "no", number]),
        Verdict::Fault(number, cause) => json!(in alloc; [number, "E16", cause_word(cause)]),
    }
}

fn line_of(alloc: Global, value: &Value) -> Result<String, AllocError>
    requires { has_float (view value.now) ≡ false }
    ensures { IfOk result (λ s. string_bytes s ≡ compact_text (view value.now) ++ 10 ∷ []) }
{
    let mut text = value.to_string(alloc)?;
    text.push('\n')?;
    Ok(text)
}

/// The line that says a verdict, with its newline.
pub fn verdict_line(alloc: Global, verdict: Verdict) -> Result<String, AllocError>
    ensures { IfOk result (λ s. string_bytes s ≡ line_text (words verdict)) }
{
    let value = verdict_value(alloc, verdict)?;
    line_of(alloc, &value)
}
