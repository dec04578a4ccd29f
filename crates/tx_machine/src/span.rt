//! The span of keys that a scan covered.
ghost use Rattle.std.specs.Prelude.{◌≡◌, IfOk, IfErr};
ghost use Rattle.tx_types.specs.declared.key.Key.{Key};
ghost use Rattle.tx_types.specs.Keys.{IsRising};
ghost use Rattle.tx_machine.specs.Keys.{covered};
ghost use Rattle.tx_machine.specs.Noted.{covers_of, EndsWithin};

use crate::reads::Span;
use crate::step::ScanRead;
use tx_types::Fault;

// What a scan covered, where its rows rise and end within its range: nothing where it
// was to give no row.
pub(crate) fn span_of(scan: &ScanRead) -> Result<Option<Span>, Fault>
    ensures ok { IfOk result (λ span. IsRising scan.now.rows → EndsWithin scan.now → (k : Key)
        → covers_of span k ≡ covered scan.now k) }
    ensures err { IfErr result (λ e. e ≡ Fault.OutOfMemory) }
{
    let rows = scan.rows.as_slice();
    if rows.len() < scan.limit as usize {
        return Ok(Some(Span {
            from: scan.from.clone()?,
            to: scan.to.clone()?,
            is_closed: false,
        }));
    }
    match rows.last() {
        None => Ok(None),
        Some(row) => Ok(Some(Span {
            from: scan.from.clone()?,
            to: row.key.clone()?,
            is_closed: true,
        })),
    }
}
