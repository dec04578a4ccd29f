//! The store: its region, and its clients.
ghost use Rattle.std.specs.Prelude.{◌≡◌, ◌⊎◌, ◌<◌, ◌≤◌, ◌+◌, [], IfOk, IfErr, OnOk, OnErr, length, map, true, false, vec_len};
ghost use Rattle.tx_cells.specs.Contents.{nothing_held};
ghost use Rattle.tx_flat.specs.Flats.{flat_content};
ghost use Rattle.tx_embed.specs.Answers.{code_of, said_bytes, laid_over};
ghost use Rattle.tx_embed.specs.Calls.{Called, IsNew, saying};
ghost use Rattle.tx_embed.specs.declared.client.Slot.TheVariants.{Idle};

use crate::answer::{Said, code_of, put_said};
use crate::client::{ClientSlot, Slot, act};
use crate::request::{act_of, parts_in};
use crate::sole_region::SoleRegion;
use std::alloc::{AllocError, Global};
use std::marker::Model;
use tx_cells::{Plain, make_families};
use tx_flat::FlatCells;
use tx_journal::{JournalId, Opened, Seat};
use tx_types::Fault;
use tx_types::limits::MAX_SEATS;

/// How many clients a store has at most: beside them one seat is the region's, and one resolves.
pub const MAX_CLIENTS: usize = MAX_SEATS - 2;

/// A journal with seats for so many clients, and a family that holds nothing. `TooManyKeys` for
/// more than 1,022.
pub fn journal(alloc: Global, clients: usize) -> Result<(Opened, FlatCells), Fault>
    ensures bounds { IfOk result (λ r. r.0.bounds ≡ []) }
    ensures seats { IfOk result (λ r. r.0.seats ≡ 2 + clients) }
    ensures empty { IfOk result (λ r. flat_content r.1 ≡ (λ k. nothing_held)) }
    ensures err { IfErr result (λ e. ((e ≡ Fault.TooManyKeys) × (1022 < clients)) ⊎ (e ≡ Fault.OutOfMemory)) }
{
    if clients > MAX_CLIENTS {
        return Err(Fault::TooManyKeys);
    }
    let mut families = make_families::<FlatCells, Plain>(alloc, &Plain, 1)?;
    let Some(family) = families.pop() else {
        return Err(Fault::OutOfMemory);
    };
    let opened = Opened::new(alloc, Vec::new(alloc), clients + 1)?;
    Ok((opened, family))
}

// A slot for each seat.
fn slots_of<J: JournalId>(alloc: Global, seats: Vec<Seat<J>>) -> Result<Vec<ClientSlot<J>>, Fault>
    ensures each { IfOk result (λ slots. slots.items ≡ map Idle seats.items) }
    ensures count { IfOk result (λ slots. vec_len slots ≡ vec_len seats) }
    ensures err { IfErr result (λ e. e ≡ Fault.OutOfMemory) }
{
    let mut slots = Vec::with_capacity(alloc, seats.len())?;
    for seat in seats {
        slots.push(Slot::Idle(seat))?;
    }
    Ok(slots)
}

/// A store, which answers one request after another.
#[derive(Drop)]
pub struct EmbeddedStore<J: JournalId> {
    alloc: Global,
    region: SoleRegion<J>,
    clients: Vec<ClientSlot<J>>,
    /// Resolves locks in the way. It is there between two calls.
    resolver: Option<Seat<J>>,
    said: Said,
    /// The answer that was asked for last.
    text: Vec<u8>,
}

impl<J: JournalId> Model for EmbeddedStore<J> {
    ghost use Rattle.std.specs.Prelude.{◌≡◌, is_some, true};
    ghost use Rattle.tx_embed.specs.Calls.{StoreState, seat_in};

    ghost Value = { StoreState };

    ghost view = { λ s. record { slots = s.clients.items; resolver = seat_in s.resolver; said = s.said } };

    ghost invariant = { λ s. is_some s.resolver ≡ true };
}

impl<J: JournalId> EmbeddedStore<J> {
    /// A store over a journal that was opened and has no other user, and over an empty family.
    pub fn open(alloc: Global, opened: Opened, family: FlatCells) -> Result<EmbeddedStore<J>, Fault>
        requires named { (opened.table ≡ J.table) × (opened.bounds ≡ J.bounds) × (opened.seats ≡ J.seats) }
        requires bounds { opened.bounds ≡ [] }
        requires some { 2 ≤ opened.seats }
        requires empty { flat_content family ≡ (λ k. nothing_held) }
        ensures new { IfOk result IsNew }
        ensures clients { IfOk result (λ s. length s.slots + 2 ≡ opened.seats) }
        ensures err { IfErr result (λ e. e ≡ Fault.OutOfMemory) }
    {
        let (journal, mut seats) = opened.named::<J>(alloc)?;
        let first = seats.remove(0);
        let resolver = seats.remove(0);
        let region = SoleRegion::new(alloc, journal, first, family)?;
        let clients = slots_of(alloc, seats)?;
        Ok(EmbeddedStore {
            alloc,
            region,
            clients,
            resolver: Some(resolver),
            said: Said::Done,
            text: Vec::new(alloc),
        })
    }

    // Whether there is a client of this number.
    fn has_client(&self, number: usize) -> bool
        ensures yes { result ≡ true → number < length self.now.slots }
        ensures no { result ≡ false → length self.now.slots ≤ number }
    {
        number < self.clients.len()
    }

    // What is said of a request.
    fn said_of(&mut self, request: &[u8]) -> Said
        ensures { Called J.bounds request.now self.old (saying result self.new) }
    {
        let Some(parts) = parts_in(request) else {
            return Said::Misused;
        };
        let asked = match act_of(self.alloc, parts.op, parts.key, parts.value) {
            Ok(asked) => asked,
            Err(said) => return said,
        };
        if !self.has_client(parts.client) {
            return Said::Misused;
        }
        let slot = &mut self.clients[parts.client];
        let Some(resolver) = self.resolver.take() else {
            unreachable!()
        };
        let (said, resolver) = act(self.alloc, slot, asked, resolver, &mut self.region);
        self.resolver = Some(resolver);
        said
    }

    /// Does what a request asks: the code of what is said of it.
    pub fn call(&mut self, request: &[u8]) -> u8
        ensures called { Called J.bounds request.now self.old self.new }
        ensures code { result ≡ code_of self.new.said }
    {
        let said = self.said_of(request);
        let code = code_of(&said);
        self.said = said;
        code
    }

    /// The bytes that tell what was said last: how many they are. They are written to the first
    /// bytes of `out` where they fit there, and else nothing is. It may be asked for again.
    pub fn answer(&mut self, out: &mut [u8]) -> Result<usize, AllocError>
        ensures same { self.new ≡ self.old }
        ensures length { IfOk result (λ len. len ≡ length (said_bytes self.old.said)) }
        ensures told { OnOk result (out.new ≡ laid_over (said_bytes self.old.said) out.old) }
        ensures broken { OnErr result (out.new ≡ out.old) }
    {
        self.text.clear();
        put_said(&mut self.text, &self.said)?;
        let len = self.text.len();
        if len <= out.len() {
            out[..len].copy_from_slice(self.text.as_slice());
        }
        Ok(len)
    }
}
