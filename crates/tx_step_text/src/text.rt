//! The texts of a step, as whoever writes it has them.
ghost use Rattle.std.specs.Prelude.{◌≡◌, ◌++◌, OnOk};
ghost use Rattle.serde_json.specs.Data.{string};
ghost use Rattle.serde_json.specs.Written.{compact_text};
ghost use Rattle.tx_steps.specs.Steps.{bytes_of};

use std::alloc::AllocError;
use tx_text::put_string;

/// A text of a step: a name, a key or a value.
pub trait StepText {
    ghost use Rattle.std.specs.Prelude.{ℕ, List};

    /// Its bytes.
    ghost bytes: { Self → List ℕ };

    /// Appends it as a JSON string.
    fn put(&self, out: &mut Vec<u8>) -> Result<(), AllocError>
        ensures { OnOk result (out.new.items ≡ out.old.items ++ compact_text (string (bytes self.now))) };
}

impl<'a> StepText for &'a str {
    ghost bytes = { bytes_of };

    fn put(&self, out: &mut Vec<u8>) -> Result<(), AllocError> {
        let text: &str = *self;
        put_string(out, text.as_bytes())
    }
}
