//! Who wrote the version after one that another transaction read.
ghost use Rattle.std.specs.Prelude.{IfSome, IsTrue};
ghost use Rattle.tx_history.specs.Dependencies.{Depends, IsNext};
ghost use Rattle.tx_history.specs.Records.{IsRecorded, history_of};

use tx_history::{Dependency, DependencyKind, Read, Recorded};

// Whether this is a read of one transaction, of the version before one that another wrote.
fn is_before(writers: &[u32], read: Read, from: u32, to: u32) -> bool
    ensures { IsTrue result → IsNext writers.now read from to }
{
    let version = read.version as usize;
    if read.txn != from || version >= writers.len() {
        return false;
    }
    writers[version] == to
}

/// An anti-dependency: the second wrote the version after one that the first read, if it did.
pub(crate) fn anti_dependency(recorded: &Recorded, from: u32, to: u32) -> Option<Dependency>
    requires { IsRecorded recorded.now }
    ensures { IfSome result (λ d. Depends (history_of recorded.now) d.kind d.from d.to d.key d.version) }
{
    for i in 0..recorded.reads.len() {
        let read = recorded.reads[i];
        let writers = recorded.writers_of(read.key as usize);
        if is_before(writers, read, from, to) {
            return Some(Dependency {
                kind: DependencyKind::Rw,
                from,
                to,
                key: read.key as usize,
                version: read.version as usize,
            });
        }
    }
    None
}
