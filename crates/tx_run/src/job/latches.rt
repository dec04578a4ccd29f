//! Which latches a line of a session asks for.
ghost use Rattle.std.specs.Prelude.{◌≡◌, IfErr, option_map};
ghost use Rattle.tx_types.specs.declared.fault.Fault.TheVariants as fault;
ghost use Rattle.tx_latch.specs.Slots.{slot_of_key};
ghost use Rattle.tx_run.specs.Latches.{key_of};

use super::ScriptJob;
use std::sync::Wait;
use tx_cells::Families;
use tx_client::Session;
use tx_journal::JournalId;
use tx_latch::{Slot, slot_of};
use tx_transfer::Source;
use tx_types::Fault;
use tx_workload::LatchNeed;

// The slot of the key that the request of a line is of: its own, and that of no other key of the
// buffer.
fn own_slot<J: JournalId>(session: &Session<J>, need: LatchNeed) -> Option<Slot>
    ensures { result ≡ option_map slot_of_key (key_of session.now.state need) }
{
    let key = match need {
        LatchNeed::Due(phase) => session.transaction().due_key(phase),
        LatchNeed::Primary => session.transaction().primary(),
        LatchNeed::Nothing | LatchNeed::Met => None,
    };
    match key {
        Some(key) => Some(slot_of(key)),
        None => None,
    }
}

impl<J: JournalId, L: Source, F: Families + Drop, R: Wait + Drop> ScriptJob<J, L, F, R> {
    /// Puts the slots of the next line's step behind those that are there: none of a step that only
    /// reads, those of a lock that is to be resolved, and of any other request its own key's.
    pub(super) fn line_slots(
        &self,
        session: &Session<J>,
        slots: &mut Vec<Slot>,
    ) -> Result<(), Fault>
        ensures { IfErr result (λ e. e ≡ fault.OutOfMemory) }
    {
        let Some(line) = self.lines.last() else {
            return Ok(());
        };
        let need = line.latches();
        if need == LatchNeed::Met {
            slots.extend_from_slice(self.met.as_slice())?;
        }
        if let Some(slot) = own_slot(session, need) {
            slots.push(slot)?;
        }
        Ok(())
    }
}
