//! The text that a script is read of, as types stand for it.
use std::marker::Brand;

/// The text of a run's script, where its bytes are known. Each run picks it.
pub trait Source {
    ghost use Rattle.std.specs.Prelude.{ℕ, List, Option};

    ghost text: { Option (List ℕ) };
}

impl Source for Brand {
    ghost use Rattle.std.specs.Prelude.{None};

    ghost text = { None };
}
