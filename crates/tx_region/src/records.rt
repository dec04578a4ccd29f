//! The records of a region: what its families hold of its keys, its safe point, and that of the
//! last collection. The greatest timestamp that was read is not kept here: it is one word for all
//! regions, which the seat raises and loads.
//!
//! A command that is not of one key is a method (`commands`, one file a command). A request of one
//! key is answered in three steps, which need not follow at once: what it sees of its key
//! (`view_into`), the plan (`copy_plan`), and the plan carried out (`make`). All have the same
//! contract: the answer is the one of the case table, with the least minimum above a mark for an
//! async lock, and the region is as that answer leaves it, whatever was read in it before.
//! `OutOfMemory` leaves it as it was: whatever can be refused is asked for before the first change.
//!
//! Requests that may change a key are counted, and of each key the number of the one that changed
//! it last is noted: so it is known whether the key is as it was at an earlier moment, however long
//! its history is.
ghost use Rattle.std.specs.Prelude.{◌≡◌, None, IfOk, IfErr};
ghost use Rattle.tx_types.specs.declared.key.Key.{Key};
ghost use Rattle.tx_plan.specs.Cells.{new_region};
ghost use Rattle.tx_cells.specs.Contents.{nothing_held};
ghost use Rattle.tx_cells.specs.Copies.{Copies};
ghost use Rattle.tx_journal.specs.Replies.{lock_in};
ghost use Rattle.tx_region.specs.Regions.{region_of};

mod plans;
mod views;

use crate::copy::RegionNumbers;
use std::alloc::Global;
use tx_cells::{Families, ShownKey};
use tx_journal::AnswerWithLock;
use tx_plan::Answer;
use tx_spelling::EncodedKey;
use tx_types::{Fault, Key, Ts};

/// What a command answered, and the timestamp that it read, if it read one.
#[derive(Debug, Drop)]
pub struct Executed {
    pub answer: AnswerWithLock,
    pub read: Option<Ts>,
}

impl Executed {
    /// This answer, which names no lock as in the way, of a command that read nothing.
    pub(crate) fn unread(answer: Answer) -> Executed
        requires { lock_in answer ≡ None }
        ensures { (result.answer ≡ answer) × (result.read ≡ None) }
    {
        Executed {
            answer: AnswerWithLock::unlocked(answer),
            read: None,
        }
    }
}

/// What is on the keys of a region, its safe point, the safe point of the last collection, and how
/// many requests it counted. Contracts see the region of the case tables by `region_of`, for each
/// greatest timestamp that may have been read in it.
#[derive(Drop)]
pub struct Records<F> {
    pub(crate) alloc: Global,
    /// What is on its keys.
    pub(crate) families: F,
    /// Its safe point: no read below it is answered.
    pub(crate) safe: Ts,
    /// The safe point of its last collection.
    pub(crate) collected: Ts,
    /// How many requests that may change a key it counted. The families note it of each key that
    /// one changes.
    pub(crate) taken: u64,
}

impl<F: Families> Records<F> {
    /// The records of a region in which nothing happened.
    pub fn new(alloc: Global, families: F) -> Records<F>
        requires { F.content families ≡ (λ k. nothing_held) }
        ensures region { region_of F.content result 0 ≡ new_region }
        ensures count { result.taken ≡ 0 }
        ensures numbers { (k : Key) → F.numbers result.families k ≡ 0 }
    {
        let mut families = families;
        families.forget_numbers(alloc);
        Records {
            alloc,
            families,
            safe: Ts::ZERO,
            collected: Ts::ZERO,
            taken: 0,
        }
    }

    /// Its safe point, and the safe point of its last collection.
    pub(crate) fn numbers(&self) -> RegionNumbers
        ensures { (result.safe ≡ self.now.safe) × (result.collected ≡ self.now.collected) }
    {
        RegionNumbers {
            safe: self.safe,
            collected: self.collected,
        }
    }

    /// The safe point.
    pub fn safe(&self) -> Ts
        ensures { result ≡ (region_of F.content self.now 0).safe }
    {
        self.safe
    }

    /// The safe point of the last collection.
    pub fn collected(&self) -> Ts
        ensures { result ≡ (region_of F.content self.now 0).collected }
    {
        self.collected
    }

    /// What is shown of a key.
    pub fn cells_of(&self, key: &Key) -> Result<ShownKey, Fault>
        ensures copies { IfOk result (λ copy. Copies ((region_of F.content self.now 0).cells key.now) copy) }
        ensures err { IfErr result (λ e. e ≡ Fault.OutOfMemory) }
    {
        let key = EncodedKey::new(self.alloc, key)?;
        let copy = self.families.cells(self.alloc, &key)?;
        ShownKey::new(self.alloc, copy)
    }
}
