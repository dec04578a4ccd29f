//! The seats of a journal: those of its regions, and those for sessions.
ghost use Rattle.std.specs.Prelude.{◌≡◌, ℕ, ◌+◌, ◌<◌, [], IfErr, IfOk, Some, length, slice_get, vec_len};
ghost use Rattle.tx_types.specs.declared.fault.Fault.TheVariants.{OutOfMemory};
ghost use Rattle.tx_journal.specs.Known.{Known, known};
ghost use Rattle.tx_store.specs.Stores.{AreForSessions};

use tx_journal::{Journal, JournalId, Seat};
use tx_types::Fault;

/// The seats of the regions, in their order, and those that are left. `OutOfMemory` drops
/// what was handed in.
pub fn split_seats<J: JournalId>(
    journal: &Journal<J>,
    mut seats: Vec<Seat<J>>,
) -> Result<(Vec<Seat<J>>, Vec<Seat<J>>), Fault>
    requires each { (k : ℕ) → k < J.seats → slice_get seats.items k ≡ Some (known k 4294967296 []) }
    requires count { (vec_len seats ≡ J.seats) × (length J.bounds < J.seats) }
    ensures dealt { IfOk result (λ r. (k : ℕ) (s : Known) → slice_get r.0.items k ≡ Some s → (s.seat ≡ k)
        × (s.events ≡ [])) }
    ensures left { IfOk result (λ r. AreForSessions (length J.bounds + 1) r.1.items) }
    ensures count { IfOk result (λ r. (vec_len r.0 ≡ length J.bounds + 1) × (vec_len r.0 + vec_len r.1 ≡ J.seats)) }
    ensures err { IfErr result (λ e. e ≡ OutOfMemory) }
{
    let sessions = seats.split_off(journal.bounds().len() + 1)?;
    Ok((seats, sessions))
}
