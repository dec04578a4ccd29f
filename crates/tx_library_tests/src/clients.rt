//! Sessions over a store, and what they do in words.
use crate::calls::{Op, perform};
use crate::words::{Short, by_call};
use std::alloc::Global;
use std::sync::Wait;
use tx_cells::Families;
use tx_client::Session;
use tx_journal::{JournalId, Seat};
use tx_store::{Store, Wire};

/// A call, and the word that is to come of it.
pub type Call<'a> = (Op<'a>, &'a str);

/// A store, how threads wait for its regions, and memory.
#[derive(Drop)]
pub struct Site<'a, J: JournalId, F: Families + Drop, R: Wait> {
    pub rt: &'a R,
    pub store: &'a Store<J, F>,
    pub alloc: Global,
}

/// A session over a store.
#[derive(Drop)]
pub struct Client<'a, J: JournalId, F: Families + Drop, R: Wait> {
    alloc: Global,
    session: Session<J>,
    wire: Wire<'a, J, F, R>,
}

impl<'a, J: JournalId, F: Families + Drop, R: Wait> Client<'a, J, F, R> {
    /// Begins on this seat. None where it is spent.
    pub fn begin(site: &Site<'a, J, F, R>, seat: Seat<J>) -> Option<Client<'a, J, F, R>> {
        match Session::begin(site.alloc, seat) {
            Ok(session) => Some(Client {
                alloc: site.alloc,
                session,
                wire: Wire::new(site.rt, site.store),
            }),
            Err(seat) => {
                drop(seat);
                None
            }
        }
    }

    /// Whether it began below this number.
    pub fn is_below(&self, number: u64) -> bool {
        self.session.start().get() < number
    }

    /// What comes of a call.
    pub fn act(&mut self, op: Op<'_>) -> Short {
        self.wire.show();
        by_call(perform(self.alloc, &mut self.session, op, &mut self.wire))
    }

    /// The number that comes of the last of these calls, where the word beside it comes of each.
    pub fn play(&mut self, calls: &[Call<'_>]) -> Option<u64> {
        let mut last = 0;
        for (op, word) in calls {
            let short = self.act(*op);
            if short.0 != *word {
                return None;
            }
            last = short.1;
        }
        Some(last)
    }

    /// Stops, and gives its seat back.
    pub fn stop(self) -> Seat<J> {
        let Client {
            alloc: _,
            session,
            wire,
        } = self;
        drop(wire);
        session.stop()
    }
}

/// Plays these calls in a transaction of its own. None where one comes out otherwise.
pub fn transact<J: JournalId, F: Families + Drop, R: Wait>(
    site: &Site<'_, J, F, R>,
    seat: Seat<J>,
    calls: &[Call<'_>],
) -> Option<u64> {
    let mut client = Client::begin(site, seat)?;
    let came = client.play(calls);
    drop(client);
    came
}
