//! The line of a tick, and whether bytes are one line.
ghost use Rattle.std.specs.Prelude.{◌≡◌, IsTrue};
ghost use Rattle.tx_text.specs.Lines.{NoNewline};
ghost use Rattle.tx_generate.specs.Scripts.{tick_line};

/// The line of a tick, which is never a fault.
pub(crate) fn tick() -> &'static [u8]
    ensures { result.now ≡ tick_line }
{
    b"[\"tick\",1]"
}

/// Whether the bytes are one line.
pub(crate) fn is_line(bytes: &[u8]) -> bool
    ensures { IsTrue result → NoNewline bytes.now }
{
    bytes.iter().all(|byte| *byte != b'\n')
}
