//! Which write records of one key collection drops, and how many. Each store asks it of
//! each of its keys.
ghost use Rattle.std.specs.Prelude.{◌≡◌, ◌≢◌, ◌↔◌, ℕ, ◌<◌, List, length, Some, true, MatchOption};
ghost use Rattle.tx_plan.specs.Cells.{Writes};
ghost use Rattle.tx_plan.specs.cases.Collect.{keeps};
ghost use Rattle.tx_plan.specs.Collection.{NoneUpto, IsNext, DroppedOn, long_among, past};

use tx_types::Ts;

/// What collection asks of a write record. None of it holds of a rollback.
#[derive(Clone, Copy, Debug)]
pub struct RecordKind {
    /// Whether it puts a value.
    pub puts: bool,
    /// Whether it puts or deletes: reads see it.
    pub is_seen: bool,
    /// Whether the value that it puts lies in the `default` family.
    pub has_long_value: bool,
}

/// The write records of one key, from new to old.
pub trait KeyRecords {
    /// They, by timestamp.
    ghost write: { Self → Writes };

    /// Where the newest record at this timestamp or below is, and what collection asks of it.
    fn newest_upto(&mut self, bound: Ts) -> Option<(Ts, RecordKind)>
        ensures newest { MatchOption result (NoneUpto (write self.old) bound)
            (λ x. IsNext (write self.old) bound x.0 x.1) }
        ensures same { write self.new ≡ write self.old };
}

/// What collection makes of one key.
#[derive(Clone, Copy, Debug)]
pub struct KeyCollection {
    /// The one record below the safe point that stays, if one does. All others below it go.
    pub kept: Option<Ts>,
    /// How many records go.
    pub records: u64,
    /// How many of these have a value in the `default` family, which goes too.
    pub values: u64,
}

// The timestamp before this one, if there is one.
fn before(at: Ts) -> Option<Ts>
    ensures { past result ≡ at }
{
    if at == Ts::ZERO {
        return None;
    }
    Some(Ts::new(at.get() - 1))
}

/// What collection at this safe point makes of a key with these records.
pub fn collect_key<R: KeyRecords>(key: &mut R, safe: Ts) -> KeyCollection
    ensures kept { (q : ℕ) → q < safe → R.write key.old q ≢ None → (keeps (R.write key.old) safe q ≡ true)
        ↔ (result.kept ≡ Some q) }
    ensures counts { (times : List ℕ) × DroppedOn (R.write key.old) safe times × (result.records ≡ length times)
        × (result.values ≡ long_among (R.write key.old) times) }
    ensures same { R.write key.new ≡ R.write key.old }
{
    let mut followed = false;
    let mut below = Some(safe);
    let mut kept = None;
    let mut records = 0;
    let mut values = 0;
    'records: while let Some(bound) = below {
        let Some((at, kind)) = key.newest_upto(bound) else {
            break;
        };
        if at < safe {
            if kind.puts && !followed {
                kept = Some(at);
            } else {
                prove!(records < safe.get());
                records += 1;
                if kind.has_long_value {
                    values += 1;
                }
            }
        }
        followed = followed || kind.is_seen;
        below = before(at);
    }
    KeyCollection {
        kept,
        records,
        values,
    }
}
