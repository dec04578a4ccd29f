//! Whether what stands in a recording is there.
ghost use Rattle.std.specs.Prelude.{◌≡◌, ◌↔◌, ◌+◌, ◌^◌, ◌<◌, ◌≤◌, length, All, IsTrue};
ghost use Rattle.tx_recording.specs.declared.recording.RecordedOutcome.TheVariants.{Ok as Committed};
ghost use Rattle.tx_recording.specs.Recordings.{IsRecording, IsTransactionOf, IsActOf, IsOpOf, ops_of, list_of};

use crate::recording::{Act, RecordedOp, RecordedOutcome, Recording, Span};

impl RecordedOutcome {
    /// Whether it is known to have committed.
    pub fn is_ok(self) -> bool
        ensures { IsTrue result ↔ (self ≡ Committed) }
    {
        match self {
            RecordedOutcome::Ok => true,
            RecordedOutcome::Fail | RecordedOutcome::Info => false,
        }
    }
}

impl Recording {
    // Whether the operations of each transaction are there.
    fn are_transactions(&self) -> bool
        ensures { IsTrue result ↔ All (IsTransactionOf (length self.now.ops.items)) self.now.transactions.items }
    {
        for t in 0..self.transactions.len() {
            let transaction = self.transactions[t];
            if transaction.first > transaction.upto || transaction.upto as usize > self.ops.len() {
                return false;
            }
        }
        true
    }

    // Whether what an operation names is there.
    fn is_act(&self, act: Act) -> bool
        ensures { IsTrue result ↔ IsActOf self.now act }
    {
        match act {
            Act::Append(value) => value < self.values,
            Act::Write(value) => value < self.values,
            Act::Read(span) => span.first as usize + span.count as usize <= self.elements.len(),
        }
    }

    // Whether what each operation names is there.
    fn are_ops(&self) -> bool
        ensures { IsTrue result ↔ All (IsOpOf self.now) self.now.ops.items }
    {
        for i in 0..self.ops.len() {
            let op = self.ops[i];
            if op.key >= self.keys || !self.is_act(op.act) {
                return false;
            }
        }
        true
    }

    // Whether all values that were read are below their number.
    fn are_elements(&self) -> bool
        ensures { IsTrue result ↔ All (λ v. v < self.now.values) self.now.elements.items }
    {
        for i in 0..self.elements.len() {
            if self.elements[i] >= self.values {
                return false;
            }
        }
        true
    }

    /// The operations of a transaction.
    pub fn ops_of(&self, txn: usize) -> &[RecordedOp]
        requires recording { IsRecording self.now }
        requires within { txn < length self.now.transactions.items }
        ensures are { result.now ≡ ops_of self.now txn }
        ensures few { length result.now < 2 ^ 32 }
    {
        let transaction = self.transactions[txn];
        &self.ops[transaction.first as usize..transaction.upto as usize]
    }

    /// The values that were read.
    pub fn list_of(&self, span: Span) -> &[u32]
        requires { span.first + span.count ≤ length self.now.elements.items }
        ensures { result.now ≡ list_of self.now span }
    {
        &self.elements[span.first as usize..span.first as usize + span.count as usize]
    }

    /// Whether what stands in it is there: the operations of each transaction, the values of each
    /// read, and each key and value below their number.
    pub fn is_recording(&self) -> bool
        ensures { IsTrue result ↔ IsRecording self.now }
    {
        if self.transactions.len() >= 0x4000_0000 || !self.are_transactions() {
            return false;
        }
        if self.ops.len() > 0xffff_ffff || !self.are_ops() {
            return false;
        }
        self.are_elements()
    }
}
