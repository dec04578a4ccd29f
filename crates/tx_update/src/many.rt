//! The values of some keys at the start of a transaction that is lent.
ghost use Rattle.std.specs.Prelude.{◌≡◌, IfOk, IfErr};
ghost use Rattle.tx_core.specs.Histories.{Begins};
ghost use Rattle.tx_update.specs.Reads.{FindsEach, FindsEachOn, LosesRead};
ghost use Rattle.tx_update.specs.Stops.{IsReadStop};

use crate::lent::Lent;
use crate::session::Begun;
use crate::stops::Stop;
use tx_journal::{JournalId, Reply, Request, Sender};
use tx_types::{Key, Value};

impl<'a, J: JournalId, S: Sender<Request<J>, Reply<J>>, B: Begun> Lent<'a, J, S, B> {
    // The values of these keys, in their order, in each world run from then on.
    fn find_each(&mut self, keys: &[Key]) -> Result<Vec<Option<Value>>, Stop>
        ensures same { self.new.running.state.buffer ≡ self.old.running.state.buffer }
        ensures more { Begins self.old.running.seat.events self.new.running.seat.events }
        ensures finds { IfOk result (λ found. FindsEachOn J.bounds self.old.running.state.buffer
            self.new.running.seat.events B.session.state.start keys.now found.items) }
        ensures err { IfErr result (IsReadStop (LosesRead S.sends) self.new.running.seat.events B.session.state.start) }
    {
        let mut found = Vec::new(self.running.alloc());
        for key in keys {
            let value = self.find_on(key)?;
            found.push(value)?;
        }
        Ok(found)
    }

    /// The values of these keys, in their order.
    pub(crate) fn find_all(&mut self, keys: &[Key]) -> Result<Vec<Option<Value>>, Stop>
        ensures same { self.new.running.state.buffer ≡ self.old.running.state.buffer }
        ensures more { Begins self.old.running.seat.events self.new.running.seat.events }
        ensures finds { IfOk result (λ found. FindsEach self.old.running.state.buffer
            self.new.running.seat.events B.session.state.start keys.now found.items) }
        ensures err { IfErr result (IsReadStop (LosesRead S.sends) self.new.running.seat.events B.session.state.start) }
    {
        let found = self.find_each(keys);
        self.running.know_run();
        found
    }
}
