//! A store is opened: its regions, their maps, and the seats of its clients.
ghost use Rattle.std.specs.Prelude.{◌≡◌, ◌+◌, ◌-◌, ◌*◌, ◌/◌, ◌<◌, ◌⊎◌, All, IfOk, IfErr, length, vec_len};
ghost use Rattle.tx_cells.specs.Contents.{nothing_held};
ghost use Rattle.tx_kv.specs.Bounds.{are_rising};
ghost use Rattle.tx_kv.specs.Maps.{held_in};
ghost use Rattle.tx_kv.specs.Programs.{IsUnopened};

use crate::maps::{Maps, StoreCells};
use crate::unopened::Unopened;
use std::alloc::Global;
use tx_cells::make_families;
use tx_journal::{JournalId, Opened, Seat};
use tx_store::Store;
use tx_types::limits::MAX_SEATS;
use tx_types::{Fault, Key};
use tx_update::Seats;

/// A store, and the seats of its clients, by twos.
pub(crate) type Made<J> = (Store<J, StoreCells>, Vec<Seats<J>>);

// Whether each key is below the one after it.
fn are_rising(keys: &[Key]) -> bool
    ensures { result ≡ are_rising keys.now }
{
    match keys {
        [] | [_] => true,
        [first, rest @ ..] => *first < rest[0] && are_rising(rest),
    }
}

// The keys of these bytes.
fn keys_of(alloc: Global, bounds: &[&[u8]]) -> Result<Vec<Key>, Fault>
    ensures count { IfOk result (λ keys. vec_len keys ≡ length bounds.now) }
    ensures err { IfErr result
        (λ e. ((e ≡ Fault.KeyLength) × (0 < length bounds.now)) ⊎ (e ≡ Fault.OutOfMemory)) }
{
    let mut keys = Vec::new(alloc);
    for bytes in bounds {
        let key = Key::new(alloc, bytes)?;
        keys.push(key)?;
    }
    Ok(keys)
}

/// A journal over regions with these keys between them, and with the seats of so many clients and
/// one more; and the maps of the regions, which hold nothing.
pub(crate) fn journal(
    alloc: Global,
    bounds: &[&[u8]],
    clients: usize,
    maps: Maps,
) -> Result<(Opened, Vec<StoreCells>), Unopened>
    ensures seats { IfOk result (λ r. r.0.seats ≡ length r.0.bounds + 1 + (clients * 2 + 2)) }
    ensures few { IfOk result (λ r. clients < 1024) }
    ensures count { IfOk result (λ r. vec_len r.1 ≡ length r.0.bounds + 1) }
    ensures empty { IfOk result (λ r. All (λ f. held_in f ≡ (λ k. nothing_held)) r.1.items) }
    ensures err { IfErr result (IsUnopened (length bounds.now) clients) }
{
    let keys = keys_of(alloc, bounds)?;
    if !are_rising(keys.as_slice()) {
        return Err(Unopened::NotRising);
    }
    if keys.len() >= MAX_SEATS
        || clients >= MAX_SEATS
        || clients * 2 + 2 >= MAX_SEATS - keys.len()
    {
        return Err(Unopened::TooMany);
    }
    let families = make_families::<StoreCells, Maps>(alloc, &maps, keys.len() + 1)?;
    let opened = Opened::new(alloc, keys, clients * 2 + 2)?;
    Ok((opened, families))
}

// The seats by twos.
fn pairs<J: JournalId>(alloc: Global, mut seats: Vec<Seat<J>>) -> Result<Vec<Seats<J>>, Fault>
    ensures count { IfOk result (λ pairs. vec_len pairs ≡ vec_len seats / 2) }
    ensures err { IfErr result (λ e. e ≡ Fault.OutOfMemory) }
{
    let mut pairs = Vec::new(alloc);
    for _pair in 0..seats.len() / 2 {
        let (Some(begins), Some(resolves)) = (seats.pop(), seats.pop()) else {
            unreachable!()
        };
        pairs.push(Seats { begins, resolves })?;
    }
    Ok(pairs)
}

/// The store under the journal's name, and the seats of its clients.
pub(crate) fn store<J: JournalId>(
    alloc: Global,
    opened: Opened,
    families: Vec<StoreCells>,
) -> Result<Made<J>, Fault>
    requires name { (opened.table ≡ J.table) × (opened.bounds ≡ J.bounds) × (opened.seats ≡ J.seats) }
    requires count { vec_len families ≡ length J.bounds + 1 }
    requires empty { All (λ f. held_in f ≡ (λ k. nothing_held)) families.items }
    ensures seats { IfOk result (λ made. vec_len made.1 ≡ (J.seats - (length J.bounds + 1)) / 2) }
    ensures err { IfErr result (λ e. e ≡ Fault.OutOfMemory) }
{
    let (store, seats) = Store::<J, StoreCells>::open(alloc, opened, families)?;
    let pairs = pairs(alloc, seats)?;
    Ok((store, pairs))
}
