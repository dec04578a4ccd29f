//! A recorded history.
ghost use Rattle.std.specs.Prelude.{◌≡◌, ◌↔◌, ◌<◌, length, All, IsTrue};
ghost use Rattle.tx_history.specs.Records.{IsRecorded, AreHeads, IsReadIn, IsAmong, writers_of};

/// The transaction read this version of the key: 0 is the key before its first version.
#[derive(Clone, Copy, Debug, PartialEq, Eq)]
pub struct Read {
    pub txn: u32,
    pub key: u32,
    pub version: u32,
}

/// The later transaction began after the earlier one had ended: its process did one after the
/// other, or the clock says so.
#[derive(Clone, Copy, Debug, PartialEq, Eq)]
pub struct After {
    pub earlier: u32,
    pub later: u32,
}

/// A recorded history. Transactions and keys are the numbers below a number.
///
/// A transaction that writes and reads nothing is a moment between those before and those after it.
#[derive(Debug, Drop)]
pub struct Recorded {
    /// How many transactions there are, below 2 to the 31.
    pub txns: u32,
    /// Where the versions of each key begin among the writers, and where those of the last end.
    pub heads: Vec<u32>,
    /// Who wrote each version of the first key, then of the next.
    pub writers: Vec<u32>,
    /// What was read.
    pub reads: Vec<Read>,
    /// What is known to come after what.
    pub after: Vec<After>,
}

// Whether these places do not fall, and are at most a number.
fn are_heads(heads: &[u32], most: usize) -> bool
    ensures { IsTrue result ↔ AreHeads heads.now most }
{
    for k in 0..heads.len() {
        if heads[k] as usize > most {
            return false;
        }
        if k + 1 < heads.len() && heads[k] > heads[k + 1] {
            return false;
        }
    }
    true
}

// Whether these numbers lie below another.
fn are_below(numbers: &[u32], above: u32) -> bool
    ensures { IsTrue result ↔ All (λ n. n < above) numbers.now }
{
    for i in 0..numbers.len() {
        if numbers[i] >= above {
            return false;
        }
    }
    true
}

impl Recorded {
    /// Who wrote each version of a key, none where there is no such key.
    pub fn writers_of(&self, key: usize) -> &[u32]
        requires { AreHeads self.now.heads.items (length self.now.writers.items) }
        ensures { result.now ≡ writers_of self.now key }
    {
        if key >= self.heads.len() || key + 1 >= self.heads.len() {
            return &self.writers[0..0];
        }
        &self.writers[self.heads[key] as usize..self.heads[key + 1] as usize]
    }

    // Whether each read is a transaction's, and of a version that there is.
    fn are_reads(&self) -> bool
        requires { AreHeads self.now.heads.items (length self.now.writers.items) }
        ensures { IsTrue result ↔ All (IsReadIn self.now) self.now.reads.items }
    {
        for i in 0..self.reads.len() {
            let read = self.reads[i];
            if read.txn >= self.txns {
                return false;
            }
            if read.version as usize > self.writers_of(read.key as usize).len() {
                return false;
            }
        }
        true
    }

    // Whether what comes one after the other are transactions.
    fn are_pairs(&self) -> bool
        ensures { IsTrue result ↔ All (IsAmong self.now.txns) self.now.after.items }
    {
        for i in 0..self.after.len() {
            let pair = self.after[i];
            if pair.earlier >= self.txns || pair.later >= self.txns {
                return false;
            }
        }
        true
    }

    /// Whether it is a history: whether the versions of each key lie in their place, and what is
    /// named is there.
    pub fn is_history(&self) -> bool
        ensures { IsTrue result ↔ IsRecorded self.now }
    {
        if self.txns >= 0x8000_0000 || !are_heads(self.heads.as_slice(), self.writers.len()) {
            return false;
        }
        if !are_below(self.writers.as_slice(), self.txns) {
            return false;
        }
        if !self.are_reads() {
            return false;
        }
        self.are_pairs()
    }
}
