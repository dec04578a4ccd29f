//! A lock that is put.
ghost use Rattle.std.specs.Prelude.{◌≡◌, Some, OnOk, OnErr, IfErr};
ghost use Rattle.tx_plan.specs.Changes.{CanPut};
ghost use Rattle.tx_cells.specs.Contents.{cells_of};
ghost use Rattle.tx_cells.specs.Afterwards.{put_on};

use crate::key::KeyFamilies;
use crate::records::HeldLock;
use std::alloc::Global;
use tx_plan::{NewLock, Prewrite};
use tx_records::apart;
use tx_types::Fault;

impl KeyFamilies {
    ghost use Rattle.tx_nested.specs.Nested.{held};

    /// Puts the lock that a prewrite asks for, and notes the number. `OutOfMemory` leaves the key
    /// as it was.
    pub(crate) fn put_lock(
        &mut self,
        alloc: Global,
        body: &Prewrite,
        new: NewLock,
        number: u64,
    ) -> Result<(), Fault>
        requires { CanPut (cells_of (held self.old)) body.now new }
        ensures ok { OnOk result (held self.new ≡ put_on (held self.old) body.now new) }
        ensures number { OnOk result (self.new.number ≡ number) }
        ensures same { OnErr result (held self.new ≡ held self.old) }
        ensures kept { OnErr result (self.new.number ≡ self.old.number) }
        ensures err { IfErr result (λ e. e ≡ Fault.OutOfMemory) }
    {
        let rec = HeldLock::new(alloc, body, new)?;
        match apart(&body.mutation)? {
            Some(value) => {
                self.values.insert(body.start, value)?;
                self.lock = Some(rec);
                self.number = number;
                Ok(())
            }
            None => {
                self.lock = Some(rec);
                self.number = number;
                Ok(())
            }
        }
    }
}
