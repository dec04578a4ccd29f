//! What a run came to, as it is told on standard error.
use std::fmt;
use std::fmt::{Display, Formatter};
use std::time::Duration;

/// What a run came to, and how long it took.
#[derive(Clone, Copy, Debug, PartialEq, Eq)]
pub struct Stats {
    /// How many transactions were told each outcome.
    pub committed: u64,
    pub aborted: u64,
    pub unknown: u64,
    pub read_only: u64,
    /// How many of them were transfers.
    pub transfers: u64,
    /// How many write records were collected meanwhile.
    pub collected: u64,
    /// From the first byte of the script to the last of its replies.
    pub elapsed: Duration,
}

impl Stats {
    /// A run that came to nothing in no time.
    pub const NOTHING: Stats = Stats {
        committed: 0,
        aborted: 0,
        unknown: 0,
        read_only: 0,
        transfers: 0,
        collected: 0,
        elapsed: Duration::ZERO,
    };

    /// How many transfers came to their end in a second. None where it took less than a
    /// microsecond.
    pub fn transfers_a_second(&self) -> Option<u64> {
        let micros = self.elapsed.as_micros();
        let scaled = u128::from(self.transfers) * 1_000_000;
        u64::try_from(scaled.checked_div(micros)?).ok()
    }
}

impl Display for Stats {
    fn fmt<W: fmt::Write>(&self, f: &mut Formatter<W>) -> fmt::Result {
        writeln!(
            f,
            "txkv: {} committed, {} aborted, {} unknown, {} read-only",
            self.committed, self.aborted, self.unknown, self.read_only
        )?;
        let end = if self.collected == 1 { "" } else { "s" };
        writeln!(f, "txkv: {} write record{end} collected", self.collected)?;
        let (seconds, millis) = (self.elapsed.as_secs(), self.elapsed.subsec_millis());
        write!(f, "txkv: {seconds}.{millis:03} seconds")?;
        match self.transfers_a_second() {
            Some(1) => writeln!(f, ", 1 transfer a second"),
            Some(rate) => writeln!(f, ", {rate} transfers a second"),
            None => writeln!(f),
        }
    }
}
