//! An engine over a new journal.
ghost use Rattle.std.specs.Prelude.{◌≡◌, ◌≤◌, ◌+◌, ℕ, All, length, IfOk, vec_len};
ghost use Rattle.tx_cells.specs.Contents.{nothing_held};
ghost use Rattle.tx_engine.specs.Openings.{frees, AreDealt, IsOpening};
ghost use Rattle.tx_engine.specs.Slots.{AllSeated};

use crate::engine::Engine;
use crate::slots::SessionSlot;
use std::alloc::{AllocError, Global};
use tx_cells::Families;
use tx_client::Session;
use tx_journal::{Journal, JournalId, Seat};
use tx_network::Network;
use tx_region::Region;
use tx_types::Fault;

// A slot for each seat.
fn places_of<J: JournalId>(
    alloc: Global,
    seats: Vec<Seat<J>>,
) -> Result<Vec<SessionSlot<Seat<J>, Session<J>>>, AllocError>
    ensures { IfOk result (λ slots. slots.items ≡ frees seats.items) }
{
    let mut seats = seats;
    let mut slots = Vec::with_capacity(alloc, seats.len())?;
    'seats: while !seats.is_empty() {
        let seat = seats.remove(0);
        slots.push(SessionSlot::Free(seat))?;
    }
    Ok(slots)
}

// A region for each of these families, with the first seats.
fn regions_of<J: JournalId, F: Families + Drop>(
    alloc: Global,
    journal: &Journal<J>,
    seats: &mut Vec<Seat<J>>,
    families: Vec<F>,
) -> Result<Vec<Region<J, F>>, Fault>
    requires few { vec_len families ≡ length J.bounds + 1 }
    requires more { vec_len families ≤ length seats.old.items }
    requires dealt { AreDealt 0 seats.old.items }
    requires empty { All (λ f. F.content f ≡ (λ k. nothing_held)) families.items }
    ensures regions { IfOk result (λ regions. AreDealt 0 regions.items × (length regions.items ≡ vec_len families)) }
    ensures rest { IfOk result (λ regions. AreDealt (vec_len families) seats.new.items
        × (length seats.new.items + vec_len families ≡ length seats.old.items)) }
{
    let mut families = families;
    let mut regions = Vec::with_capacity(alloc, families.len())?;
    'families: while let Some(empty) = families.pop() {
        let seat = seats.remove(0);
        regions.push(Region::new(alloc, journal.clone()?, seat, empty))?;
    }
    Ok(regions)
}

/// An engine over these seats of a new journal: those of the regions come first, then one for what
/// no session does, then those of the slots. `AllocError` where a growth was refused.
pub fn engine_of<J: JournalId, F: Families + Drop>(
    alloc: Global,
    journal: Journal<J>,
    seats: Vec<Seat<J>>,
    families: Vec<F>,
) -> Result<Engine<J, F>, AllocError>
    requires few { vec_len families ≡ length J.bounds + 1 }
    requires some { length J.bounds + 2 ≤ length seats.items }
    requires dealt { AreDealt 0 seats.items }
    requires empty { All (λ f. F.content f ≡ (λ k. nothing_held)) families.items }
    ensures opening { IfOk result IsOpening }
    ensures ready { IfOk result (λ e. (n : ℕ) → n ≤ 4294967296 → AllSeated J.bounds n e) }
    ensures size { IfOk result (λ e. length seats.items ≡ length J.bounds + 2 + length e.slots) }
{
    let mut seats = seats;
    let Ok(regions) = regions_of(alloc, &journal, &mut seats, families) else {
        return Err(AllocError);
    };
    let mut system_seat = seats.remove(0);
    let Ok(slots) = places_of(alloc, seats) else {
        return Err(AllocError);
    };
    let newest = system_seat.tell();
    let network = Network::new(alloc, journal, regions, newest);
    Ok(Engine::new(alloc, network, system_seat, slots))
}
