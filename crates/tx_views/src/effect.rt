//! What operations leave of a key, whatever it holds.
ghost use Rattle.std.specs.Prelude.{◌≡◌, ℕ, List, IfOk, OnOk};
ghost use Rattle.tx_recording.specs.Explanations.{act_on};
ghost use Rattle.tx_views.specs.Views.{IsEffect, left_by};

use std::alloc::{AllocError, Global};
use tx_recording::{Act, RecordedOp};

/// What operations leave of a key: these values behind those that it holds, or in place of them.
#[derive(Debug, Drop)]
pub struct Effect {
    /// Whether what the key holds goes.
    pub clears: bool,
    pub values: Vec<u32>,
}

// One more act.
fn act_on(effect: &mut Effect, act: Act) -> Result<(), AllocError>
    ensures { OnOk result ((xs : List ℕ) → left_by effect.new xs ≡ act_on act (left_by effect.old xs)) }
{
    match act {
        Act::Append(value) => effect.values.push(value)?,
        Act::Write(value) => {
            effect.clears = true;
            effect.values.clear();
            effect.values.push(value)?;
        }
        Act::Read(_) => {}
    }
    Ok(())
}

/// What operations leave of a key.
pub fn effect_of(alloc: Global, ops: &[RecordedOp], key: u32) -> Result<Effect, AllocError>
    ensures { IfOk result (IsEffect ops.now key) }
{
    let mut effect = Effect {
        clears: false,
        values: Vec::new(alloc),
    };
    for i in 0..ops.len() {
        if ops[i].key == key {
            act_on(&mut effect, ops[i].act)?;
        }
    }
    Ok(effect)
}
