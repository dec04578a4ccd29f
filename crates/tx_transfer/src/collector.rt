//! What a run collects while its sessions make their steps.
ghost use Rattle.std.specs.Prelude.{◌≡◌, ◌==◌, None, unwrap_or, if◌then◌else◌};
ghost use Rattle.tx_transfer.specs.Collections.{CollectsBy};

use crate::context::Context;
use std::sync::Wait;
use tx_cells::Families;
use tx_journal::JournalId;
use tx_types::Ts;

/// The collections of a run. One session makes them, as one server of many collects for all.
#[derive(Clone, Copy, Debug)]
pub struct Collector {
    /// For how many ticks a version is kept that is out of date.
    life_time: Option<u64>,
    /// The number from which on it collects again.
    due: u64,
    /// How many write records it dropped.
    dropped: u64,
}

impl Collector {
    /// That of the session of this number: the first one collects.
    pub fn of(number: u32, life_time: Option<u64>) -> Collector
        ensures first { result.life_time ≡ (if number == 0 then life_time else None) }
        ensures due { result.due ≡ unwrap_or result.life_time 0 }
        ensures dropped { result.dropped ≡ 0 }
    {
        let life_time = if number == 0 { life_time } else { None };
        Collector {
            life_time,
            due: life_time.unwrap_or(0),
            dropped: 0,
        }
    }

    /// How many write records it dropped.
    pub fn dropped(&self) -> u64
        ensures { result ≡ self.now.dropped }
    {
        self.dropped
    }

    /// Collects what is out of date for longer than versions are kept, where that was not
    /// done for as long.
    pub fn collect<J: JournalId, F: Families + Drop, R: Wait + Drop>(
        &mut self,
        context: &mut Context<J, F, R>,
    )
        ensures { CollectsBy J.bounds self.old self.old.life_time context.old.resolver self.new context.new.resolver }
    {
        let Some(life_time) = self.life_time else {
            return;
        };
        let last = context.last().get();
        if last < self.due {
            return;
        }
        let dropped = context.collect(Ts::new(last.saturating_sub(life_time)));
        self.dropped = self.dropped.saturating_add(dropped);
        self.due = last.saturating_add(life_time);
    }
}
