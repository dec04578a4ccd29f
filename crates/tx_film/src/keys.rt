//! The keys that a script names.
ghost use Rattle.std.specs.Prelude.{IfOk, OnOk};
ghost use Rattle.tx_types.specs.Keys.{AreRising};
ghost use Rattle.tx_film.specs.Lines.{IsShowable};

use crate::names::key_named;
use std::alloc::Global;
use tx_steps::{Line, Program};
use tx_text::{Broken, Parts};
use tx_types::{Key, is_key};

// Puts a key among rising ones, unless it is there.
fn put_key(alloc: Global, keys: &mut Vec<Key>, text: &str) -> Result<(), Broken>
    ensures showable { OnOk result (IsShowable keys.old.items → IsShowable keys.new.items) }
    ensures rising { OnOk result (AreRising keys.old.items → AreRising keys.new.items) }
{
    let Ok(key) = Key::new(alloc, text.as_bytes()) else {
        return Err(Broken::Memory);
    };
    if let Err(at) = keys.as_slice().binary_search(&key) {
        keys.insert(at, key)?;
    }
    Ok(())
}

// Puts the key that a line names among rising ones.
fn put_named(alloc: Global, keys: &mut Vec<Key>, line: &[u8]) -> Result<(), Broken>
    ensures showable { OnOk result (IsShowable keys.old.items → IsShowable keys.new.items) }
    ensures rising { OnOk result (AreRising keys.old.items → AreRising keys.new.items) }
{
    let mut parts = Parts::new();
    let Ok(said) = Line::read(alloc, 1, line, &mut parts)? else {
        return Ok(());
    };
    match said.step(Program::Simulate) {
        Some(step) => match key_named(&step) {
            Some(text) if is_key(text.as_bytes()) => put_key(alloc, keys, text),
            _ => Ok(()),
        },
        None => Ok(()),
    }
}

/// The keys that lines name, each once, in order.
pub fn keys_of(alloc: Global, lines: &[&[u8]]) -> Result<Vec<Key>, Broken>
    ensures showable { IfOk result (λ keys. IsShowable keys.items) }
    ensures rising { IfOk result (λ keys. AreRising keys.items) }
{
    let mut keys = Vec::new(alloc);
    'lines: for line in lines {
        put_named(alloc, &mut keys, line)?;
    }
    Ok(keys)
}
