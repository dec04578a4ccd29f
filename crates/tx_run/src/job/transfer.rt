//! A transfer of a session of a run: it begins, goes on, and ends.
ghost use Rattle.std.specs.Prelude.{◌≡◌, ◌≢◌, true, is_some, Some};
ghost use Rattle.tx_journal.specs.Known.{Known};
ghost use Rattle.tx_transaction.specs.Sessions.{begun};
ghost use Rattle.tx_steps.specs.Steps.{moved};
ghost use Rattle.tx_transfer.specs.TransferSteps.{Moving};
ghost use Rattle.tx_transfer.specs.Sources.{HasTransfer};
ghost use Rattle.tx_transfer.specs.Steps.{Begun};
ghost use Rattle.tx_workload.specs.Steps.{SaysStep};
ghost use Rattle.tx_workload.specs.Tells.{is_refusal};
ghost use Rattle.tx_run.specs.Jobs.{AdvancesSo, JobGoesOn, MayAnswer, with_line};
ghost use Rattle.tx_run.specs.Played.{EndsTransfer, Leads, Standing, at, free, moving};
ghost use Rattle.tx_run.specs.Transfers.{IsGivenUp};

use super::ScriptJob;
use crate::state::JobState;
use std::sync::Wait;
use tx_cells::Families;
use tx_client::Session;
use tx_journal::{JournalId, Seat};
use tx_reply::ScriptReply;
use tx_steps::Transfer;
use tx_transfer::{Order, PlainReply, Source, TransferProgress, TransferState, refused};
use tx_types::Cause;
use tx_workload::KeyPair;

impl<J: JournalId, L: Source, F: Families + Drop, R: Wait + Drop> ScriptJob<J, L, F, R> {
    // A transfer is on its way.
    fn go_on(&mut self, number: u64, transfer: Box<TransferState<J, L>>)
        requires may { MayAnswer self.old }
        requires of { transfer.value.number ≡ number }
        ensures goes { JobGoesOn (with_line number self.old) self.new }
        ensures set { self.new ≡ record self.old { going = Some number; stands = moving transfer.value } }
    {
        let _ = number;
        self.set_state(JobState::Transfer(transfer));
    }

    // A transfer begins: nothing is told before it ends.
    pub(super) fn start_transfer(&mut self, seat: Seat<J>, order: Order<L>)
        requires { MayAnswer self.old }
        ensures goes { JobGoesOn (with_line order.number self.old) self.new }
        ensures plays { is_some L.text ≡ true
            → Leads J.bounds L.text (at (free seat)) self.old.log self.new.log self.new.stands }
    {
        let number = order.number;
        match Session::begin(self.context.alloc, seat) {
            Ok(session) => self.on_session(session, order),
            Err(seat) => {
                self.set_state(JobState::Free(seat));
                self.report_refusal(number, PlainReply::new(ScriptReply::OracleSpent));
            }
        }
    }

    // Keeps a transfer whose session has just begun. The log knows what its seat knows.
    fn on_session(&mut self, mut session: Session<J>, order: Order<L>)
        requires may { MayAnswer self.old }
        requires begun { session.state ≡ begun session.state.start }
        ensures goes { JobGoesOn (with_line order.number self.old) self.new }
        ensures plays { is_some L.text ≡ true → (k : Known) → Begun J.bounds k session
            → Leads J.bounds L.text (at (free k)) self.old.log self.new.log self.new.stands }
    {
        let number = order.number;
        self.hear(&mut session);
        match Box::new(self.context.alloc, TransferState::new(session, order)) {
            Ok(transfer) => self.go_on(number, transfer),
            Err(refused) => {
                self.give_up(refused.value, PlainReply::new(ScriptReply::OutOfMemory));
            }
        }
    }

    // A transfer begins whose keys were refused as it was read.
    pub(super) fn order_transfer(&mut self, number: u64, seat: Seat<J>, transfer: Transfer<&str>)
        requires may { MayAnswer self.old }
        requires says { SaysStep L.text number }
        requires apart { transfer.from.now ≢ transfer.to.now }
        requires said { HasTransfer L.text number (Some (moved transfer)) }
        ensures goes { JobGoesOn (with_line number self.old) self.new }
        ensures plays { is_some L.text ≡ true
            → Leads J.bounds L.text (at (free seat)) self.old.log self.new.log self.new.stands }
    {
        match Order::new(self.context.alloc, number, &transfer) {
            Err(fault) => {
                self.set_state(JobState::Free(seat));
                self.report_refusal(number, refused(fault));
            }
            Ok(order) => self.start_transfer(seat, order),
        }
    }

    // A transfer begins, where no transaction is open.
    pub(super) fn on_order(&mut self, order: Order<L>)
        requires { MayAnswer self.old }
        ensures goes { JobGoesOn (with_line order.number self.old) self.new }
        ensures plays { is_some L.text ≡ true → (from : Standing) → self.old.stands ≡ at from
            → Leads J.bounds L.text (at from) self.old.log self.new.log self.new.stands }
    {
        match self.take_state() {
            JobState::Free(seat) => self.start_transfer(seat, order),
            JobState::Live(session) => {
                self.set_state(JobState::Live(session));
                self.fail(order.number, Cause::Order);
            }
            JobState::Transfer(..) | JobState::Taken => self.fail(order.number, Cause::Order),
        }
    }

    // A transfer is over.
    fn end_transfer(&mut self, transfer: TransferState<J, L>)
        requires { MayAnswer self.old }
        ensures goes { JobGoesOn (with_line transfer.number self.old) self.new }
        ensures told { EndsTransfer J.bounds transfer TransferProgress.Over self.old.log self.new.log self.new.stands }
    {
        let (session, number, keys) = transfer.into_parts();
        let pair = KeyPair::of(&keys);
        drop(keys);
        match self.conclude(number, session, Some(pair)) {
            Ok(seat) => self.set_state(JobState::Free(seat)),
            Err(session) => self.stop(number, session, PlainReply::new(ScriptReply::OutOfMemory)),
        }
    }

    // A transfer is left as it is, by a session that knows what the log was told.
    fn give_up(&mut self, transfer: TransferState<J, L>, plain: PlainReply)
        requires may { MayAnswer self.old }
        requires refusal { is_refusal plain.reply ≡ true }
        ensures goes { JobGoesOn (with_line transfer.number self.old) self.new }
        ensures told { (p : TransferProgress) → IsGivenUp transfer p plain.reply
            → EndsTransfer J.bounds transfer p self.old.log self.new.log self.new.stands }
    {
        let (mut session, number, keys) = transfer.into_parts();
        drop(keys);
        self.hear(&mut session);
        self.stop(number, session, plain);
    }

    // The same, of one that was on its way. Out of line: one that ends has no room for it.
    #[inline(never)]
    fn give_up_boxed(&mut self, transfer: Box<TransferState<J, L>>, plain: PlainReply)
        requires may { MayAnswer self.old }
        requires refusal { is_refusal plain.reply ≡ true }
        ensures goes { JobGoesOn (with_line transfer.value.number self.old) self.new }
        ensures told { (p : TransferProgress) → IsGivenUp transfer.value p plain.reply
            → EndsTransfer J.bounds transfer.value p self.old.log self.new.log self.new.stands }
    {
        self.give_up(Box::into_inner(transfer), plain);
    }

    // Makes the next step of a transfer, if one is on its way.
    pub(super) fn advance_transfer(&mut self) -> TransferProgress
        ensures goes { JobGoesOn self.old self.new }
        ensures advances { AdvancesSo J.bounds self.old result self.new }
    {
        match &mut self.state {
            JobState::Transfer(transfer) => transfer.step(&mut self.context),
            _ => TransferProgress::More,
        }
    }

    // A transfer that goes on no more.
    pub(super) fn finish_transfer(&mut self, progress: TransferProgress)
        ensures goes { JobGoesOn self.old self.new }
        ensures ends { (m : Moving) → self.old.stands ≡ moving m → progress ≢ TransferProgress.More
            → EndsTransfer J.bounds m progress self.old.log self.new.log self.new.stands }
    {
        match self.take_state() {
            JobState::Transfer(transfer) => match progress {
                TransferProgress::More => self.set_state(JobState::Transfer(transfer)),
                TransferProgress::Over => self.end_transfer(Box::into_inner(transfer)),
                TransferProgress::Spent => {
                    self.give_up_boxed(transfer, PlainReply::new(ScriptReply::OracleSpent));
                }
                TransferProgress::OutOfMemory => {
                    self.give_up_boxed(transfer, PlainReply::new(ScriptReply::OutOfMemory));
                }
            },
            other => self.set_state(other),
        }
    }
}
