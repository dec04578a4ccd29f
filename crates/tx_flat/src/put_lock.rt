//! A lock that is put.
ghost use Rattle.std.specs.Prelude.{◌≡◌, Some, OnOk, OnErr, IfErr};
ghost use Rattle.tx_plan.specs.Changes.{CanPut, after_put};
ghost use Rattle.tx_cells.specs.Contents.{cells_of};
ghost use Rattle.tx_cells.specs.Afterwards.{OnlyOn, put_on};

use crate::FlatCells;
use std::alloc::Global;
use tx_plan::{NewLock, Prewrite};
use tx_records::{apart, lock_bytes};
use tx_spelling::EncodedKey;
use tx_types::Fault;

impl FlatCells {
    ghost use Rattle.tx_flat.specs.Flats.{flat_content};

    /// Puts the lock that a prewrite asks for, and notes no number. A long value goes first, and
    /// comes out again where there is no room for the lock.
    pub(crate) fn put_unnoted(
        &mut self,
        alloc: Global,
        key: &EncodedKey<'_>,
        body: &Prewrite,
        new: NewLock,
    ) -> Result<(), Fault>
        requires of { key.now ≡ body.now.key }
        requires can { CanPut (cells_of (flat_content self.old body.now.key)) body.now new }
        ensures content { OnOk result (OnlyOn body.now.key (put_on (flat_content self.old body.now.key) body.now new)
            (flat_content self.old) (flat_content self.new)) }
        ensures cells { OnOk result (cells_of (flat_content self.new body.now.key)
            ≡ after_put (cells_of (flat_content self.old body.now.key)) body.now (Some new)) }
        ensures same { OnErr result (flat_content self.new ≡ flat_content self.old) }
        ensures numbers { self.new.numbers ≡ self.old.numbers }
        ensures err { IfErr result (λ e. e ≡ Fault.OutOfMemory) }
    {
        let rec = lock_bytes(alloc, body, new)?;
        let spelt = key.bytes().copy(alloc)?;
        let Some(value) = apart(&body.mutation)? else {
            self.locks.insert(spelt, rec)?;
            return Ok(());
        };
        let version = key.version(alloc, body.start)?;
        let same_version = key.version(alloc, body.start)?;
        self.values.insert(version, value)?;
        match self.locks.insert(spelt, rec) {
            Ok(_) => Ok(()),
            Err(_) => {
                self.values.remove(&same_version);
                Err(Fault::OutOfMemory)
            }
        }
    }
}
