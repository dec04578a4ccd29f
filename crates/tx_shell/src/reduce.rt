//! A script made shorter, as a command line asks for it.
use crate::invocation::Invocation;
use std::io::{BufRead, Write};
use tx_cells::Plain;
use tx_film::read_all;
use tx_flat::FlatCells;
use tx_hints::escaped;
use tx_reduce::reduce;
use tx_text::{Broken, End, finish, send};

/// `txkv reduce`: the families over which a script is tried make no difference to its replies.
pub(crate) fn reduce_script<I: BufRead, O: Write>(
    asked: &Invocation<'_>,
    reader: &mut I,
    writer: &mut O,
) -> Result<End, Broken> {
    let host = asked.host;
    let script = read_all(host.alloc(), reader)?;
    let keep = asked.job.keep.as_bytes();
    match reduce::<FlatCells, _>(host.alloc(), &Plain, script.as_slice(), keep)? {
        Some(shorter) => {
            send(writer, shorter.as_slice())?;
            finish(writer)?;
            Ok(End::Well)
        }
        None => {
            if let Ok(keep) = escaped(host.alloc(), asked.job.keep) {
                let _ = eprintln!(host; "txkv: no reply of the script has {keep}");
            }
            Ok(End::No)
        }
    }
}
