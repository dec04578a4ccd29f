//! What a request of one key sees of it.
ghost use Rattle.std.specs.Prelude.{◌≡◌, ◌↔◌, IfOk, IfErr, IsTrue, OnOk};
ghost use Rattle.tx_types.specs.Keys.{IsInsert};
ghost use Rattle.tx_plan.specs.cases.Prewrite.{HasValue};
ghost use Rattle.tx_region.specs.Regions.{region_of};
ghost use Rattle.tx_region.specs.Copies.{IsOfKey, key_in, Sees, SeesRead, SeesTxn, SeesPrewrite};

use super::Records;
use crate::copy::KeyView;
use crate::copy_plan::key_of;
use tx_cells::Families;
use tx_plan::{Body, Prewrite};
use tx_spelling::EncodedKey;
use tx_types::{Fault, Mutation, Ts};

impl<F: Families> Records<F> {
    // Leaves what a read sees of its key at a place.
    fn read_view_into(&self, key: &EncodedKey<'_>, at: Ts, place: &mut KeyView) -> Result<(), Fault>
        ensures ok { OnOk result (SeesRead ((region_of F.content self.now 0).cells key.now) at place.new) }
        ensures err { IfErr result (λ e. e ≡ Fault.OutOfMemory) }
    {
        let view = self.families.read(self.alloc, key, at)?;
        *place = KeyView::Read(view);
        Ok(())
    }

    // Leaves what a request of a transaction sees of its key at a place.
    fn txn_view_into(
        &self,
        key: &EncodedKey<'_>,
        start: Ts,
        commit: Ts,
        place: &mut KeyView,
    ) -> Result<(), Fault>
        ensures ok { OnOk result (SeesTxn ((region_of F.content self.now 0).cells key.now) start commit place.new) }
        ensures err { IfErr result (λ e. e ≡ Fault.OutOfMemory) }
    {
        let view = self.families.view(self.alloc, key, start, commit)?;
        *place = KeyView::Txn(view);
        Ok(())
    }

    // Leaves what a prewrite sees of its key at a place.
    fn prewrite_view_into(
        &self,
        key: &EncodedKey<'_>,
        body: &Prewrite,
        place: &mut KeyView,
    ) -> Result<(), Fault>
        ensures ok { OnOk result (SeesPrewrite ((region_of F.content self.now 0).cells key.now) body.now place.new) }
        ensures err { IfErr result (λ e. e ≡ Fault.OutOfMemory) }
    {
        let view = self.families.view(self.alloc, key, body.start, body.start)?;
        let has_value = self.has_value(key, body)?;
        *place = KeyView::Prewrite { view, has_value };
        Ok(())
    }

    // Whether a read at its start finds a value, where it inserts.
    fn has_value(&self, key: &EncodedKey<'_>, body: &Prewrite) -> Result<bool, Fault>
        ensures ok { IfOk result (λ has. IsInsert body.now.mutation → IsTrue has
            ↔ HasValue ((region_of F.content self.now 0).cells key.now).write body.now.start) }
        ensures err { IfErr result (λ e. e ≡ Fault.OutOfMemory) }
    {
        match body.mutation {
            Mutation::Insert(_) => self.finds_value(key, body.start),
            Mutation::Put(_) | Mutation::Delete | Mutation::Lock => Ok(false),
        }
    }

    // Whether a read of the key at this timestamp finds a value.
    fn finds_value(&self, key: &EncodedKey<'_>, at: Ts) -> Result<bool, Fault>
        ensures ok { IfOk result (λ has. IsTrue has
            ↔ HasValue ((region_of F.content self.now 0).cells key.now).write at) }
        ensures err { IfErr result (λ e. e ≡ Fault.OutOfMemory) }
    {
        let view = self.families.read(self.alloc, key, at)?;
        Ok(view.value.is_some())
    }

    /// The key of a request of one key, spelt for all that is asked of it here.
    #[inline(always)]
    pub(crate) fn spell<'a>(&self, body: &'a Body) -> Result<EncodedKey<'a>, Fault>
        requires { IsOfKey body.now }
        ensures ok { IfOk result (λ key. key ≡ key_in body.now) }
        ensures err { IfErr result (λ e. e ≡ Fault.OutOfMemory) }
    {
        EncodedKey::new(self.alloc, key_of(body))
    }

    /// Leaves what a request of one key sees of it at a place.
    #[inline(always)]
    pub(crate) fn view_into(
        &self,
        key: &EncodedKey<'_>,
        body: &Body,
        place: &mut KeyView,
    ) -> Result<(), Fault>
        requires of_key { IsOfKey body.now }
        requires of { key.now ≡ key_in body.now }
        ensures ok { OnOk result (Sees (region_of F.content self.now 0).cells body.now place.new) }
        ensures err { IfErr result (λ e. e ≡ Fault.OutOfMemory) }
    {
        match body {
            Body::Get(body) => self.read_view_into(key, body.at, place),
            Body::Prewrite(body) => self.prewrite_view_into(key, body.asked(), place),
            Body::Commit(body) => self.txn_view_into(key, body.start, body.commit, place),
            Body::BatchRollback(body) => self.txn_view_into(key, body.start, body.start, place),
            Body::TxnHeartBeat(body) => self.txn_view_into(key, body.start, body.start, place),
            Body::CheckTxnStatus(body) => self.txn_view_into(key, body.start, body.start, place),
            Body::CheckSecondaryLocks(body) => {
                self.txn_view_into(key, body.start, body.start, place)
            }
            Body::ResolveLock(body) => self.txn_view_into(key, body.start, body.commit(), place),
            Body::Scan(_) | Body::RaiseSafe(_) | Body::LocksBelow(_) | Body::Collect(_) => {
                unreachable!()
            }
        }
    }
}
