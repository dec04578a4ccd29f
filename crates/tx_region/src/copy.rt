//! What is copied of a region for a request.
use tx_plan::{ReadView, TxnView};
use tx_types::Ts;

/// What a request sees of its key.
#[derive(Debug, Drop)]
pub enum KeyView {
    /// A read.
    Read(ReadView),
    /// A prewrite, and for an insert whether a read at its start finds a value.
    Prewrite { view: TxnView, has_value: bool },
    /// Another request of a transaction.
    Txn(TxnView),
}

/// What is seen before anybody looks: a read that found nothing.
pub(crate) fn no_view() -> KeyView {
    KeyView::Read(ReadView {
        lock: None,
        value: None,
    })
}

/// The safe point of a region, and the safe point of its last collection.
#[derive(Clone, Copy, Debug)]
pub struct RegionNumbers {
    pub safe: Ts,
    pub collected: Ts,
}

/// What a region loads before it answers: the last number that was drawn, and the greatest
/// timestamp that was read, or 0 where the answer does not look at that.
#[derive(Clone, Copy, Debug)]
pub struct Loaded {
    pub last: Ts,
    pub mark: Ts,
}
