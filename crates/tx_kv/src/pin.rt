//! A timestamp that a client keeps between its calls.
ghost use Rattle.std.specs.Prelude.{◌≡◌, Ok, IfOk};
ghost use Rattle.tx_journal.specs.Known.{HasDrawn};
ghost use Rattle.tx_kv.specs.Clients.{KeepsTerms};

use crate::client::Client;
use crate::live::Live;
use std::sync::Wait;
use thiserror::Error;
use tx_journal::JournalId;
use tx_types::{Fault, Ts};

/// A timestamp that stays readable as long as this is there: no collection rises above it. Its
/// client may do whatever it does meanwhile, write and collect too.
pub struct Pin<'a> {
    live: &'a Live,
    place: usize,
    at: Ts,
}

impl Drop for Pin<'_> {
    fn drop(self) {
        let Pin { live, place, at: _ } = self;
        live.release(place);
    }
}

impl Pin<'_> {
    /// The timestamp, for `Client::view_at`.
    pub fn at(&self) -> Ts
        ensures { result ≡ self.now.at }
    {
        self.at
    }
}

/// Why no timestamp is kept.
#[derive(Debug, Drop, Error)]
pub enum Unpinned {
    /// The client keeps 16 already.
    #[error("a client keeps at most 16 timestamps")]
    TooMany,
    /// E11: the client has drawn 2^32 ticks.
    #[error("{0}")]
    Refused(Fault),
}

impl<'a, J: JournalId, R: Wait> Client<'a, J, R> {
    /// Draws a timestamp, and keeps it readable as long as the answer is there. A client may keep
    /// 16 of them.
    ///
    /// ```
    /// let Ok(pin) = client.pin() else {
    ///     return None;
    /// };
    /// ```
    pub fn pin(&mut self) -> Result<Pin<'a>, Unpinned>
        ensures drawn { IfOk result (λ pin. HasDrawn J.bounds self.old.seats.resolves.seat
            self.old.seats.resolves.events 1 pin.at self.new.seats.resolves.events) }
        ensures begins { self.new.seats.begins ≡ self.old.seats.begins }
        ensures terms { KeepsTerms self.old self.new }
    {
        let drawn = self.draw_entered();
        let pinned = self.keep(drawn);
        self.leave();
        pinned
    }

    // Keeps a timestamp that was drawn, at which it reads already.
    fn keep(&self, drawn: Result<Ts, Fault>) -> Result<Pin<'a>, Unpinned>
        ensures { IfOk result (λ pin. drawn ≡ Ok pin.at) }
    {
        match drawn {
            Err(fault) => Err(Unpinned::Refused(fault)),
            Ok(at) => match self.live.keep(self.number, at) {
                None => Err(Unpinned::TooMany),
                Some(place) => Ok(Pin {
                    live: self.live,
                    place,
                    at,
                }),
            },
        }
    }
}
