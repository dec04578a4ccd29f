//! The timestamps at which the clients of a store still read.
ghost use Rattle.std.specs.Prelude.{◌≡◌, ◌≤◌, IfOk, IfErr};
ghost use Rattle.tx_journal.specs.Known.{HasDrawn};
ghost use Rattle.tx_kv.specs.Counters.{safe_upto};

use std::alloc::Global;
use std::sync::atomic::{AtomicU64, Ordering};
use tx_journal::{JournalId, Seat};
use tx_types::{Fault, Ts};

/// What a client has here that reads nowhere.
const NOWHERE: u64 = u64::MAX;

/// How many timestamps a client may keep beside those of its calls.
const PINS: usize = 16;

/// For each client the least timestamp at which it may read before its call ends, and those that
/// it keeps between its calls. A client enters one before it draws a start, and who collects looks
/// only after it knows the last timestamp that was drawn: so a start that is not seen here lies
/// above that.
#[derive(Drop)]
pub(crate) struct Live {
    least: Vec<AtomicU64>,
    pins: Vec<AtomicU64>,
}

// So many places, at which nothing is read.
fn places(alloc: Global, count: usize) -> Result<Vec<AtomicU64>, Fault>
    ensures { IfErr result (λ e. e ≡ Fault.OutOfMemory) }
{
    let mut places = Vec::new(alloc);
    for _ in 0..count {
        places.push(AtomicU64::new(NOWHERE))?;
    }
    Ok(places)
}

// The least of a timestamp and those at these places.
fn least_of(places: &[AtomicU64], upto: u64) -> u64
    ensures { result ≤ upto }
{
    let mut least = upto;
    for place in places {
        least = least.min(place.load(Ordering::SeqCst));
    }
    least
}

/// The highest safe point that a collection may take, by the least timestamp at which a client
/// reads and the last one that was drawn.
pub(crate) fn safe_upto(oldest: &Option<Ts>, last: Ts) -> Ts
    ensures { result ≡ safe_upto oldest.now last }
{
    match oldest {
        Some(oldest) => Ts::new(oldest.get().min(last.get())),
        None => last,
    }
}

impl Live {
    /// So many clients, which read nowhere and keep nothing.
    pub(crate) fn new(alloc: Global, clients: usize) -> Result<Live, Fault>
        ensures { IfErr result (λ e. e ≡ Fault.OutOfMemory) }
    {
        let least = places(alloc, clients)?;
        let pins = places(alloc, clients.saturating_mul(PINS))?;
        Ok(Live { least, pins })
    }

    /// A client keeps a timestamp, at which it reads already: at which place. None where it keeps
    /// as many as it may.
    pub(crate) fn keep(&self, client: usize, at: Ts) -> Option<usize> {
        let first = client.checked_mul(PINS)?;
        for n in 0..PINS {
            let place = first.checked_add(n)?;
            let pin = self.pins.get(place)?;
            if pin.load(Ordering::SeqCst) == NOWHERE {
                pin.store(at.get(), Ordering::SeqCst);
                return Some(place);
            }
        }
        None
    }

    /// What is kept at a place is kept no longer.
    pub(crate) fn release(&self, place: usize) {
        if let Some(pin) = self.pins.get(place) {
            pin.store(NOWHERE, Ordering::SeqCst);
        }
    }

    /// The least timestamp at which a client reads, or that it keeps; none where there is none.
    pub(crate) fn oldest(&self) -> Option<Ts> {
        let least = least_of(self.least.as_slice(), NOWHERE);
        match least_of(self.pins.as_slice(), least) {
            NOWHERE => None,
            oldest => Some(Ts::new(oldest)),
        }
    }

    /// A client reads at this timestamp, or above.
    pub(crate) fn enter(&self, client: usize, at: Ts) {
        if let Some(least) = self.least.get(client) {
            least.store(at.get(), Ordering::SeqCst);
        }
    }

    /// Draws a timestamp at which a client reads: before that it enters the last one.
    pub(crate) fn draw<J: JournalId>(&self, client: usize, seat: &mut Seat<J>) -> Result<Ts, Fault>
        ensures drawn { IfOk result (λ at. HasDrawn J.bounds seat.old.seat seat.old.events 1 at seat.new.events) }
        ensures err { IfErr result (λ e. e ≡ Fault.OracleSpent) }
    {
        let now = seat.last();
        self.enter(client, now);
        seat.draw(1)
    }

    /// A client reads nowhere.
    pub(crate) fn leave(&self, client: usize) {
        if let Some(least) = self.least.get(client) {
            least.store(NOWHERE, Ordering::SeqCst);
        }
    }
}
