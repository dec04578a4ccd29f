//! What the parts of a scan come to.
use tx_core::Answer;
use tx_transaction::Miss;
use tx_types::KeyValues;

/// What a part of a scan comes to.
#[derive(Debug, Drop)]
pub(crate) enum ScanPart {
    /// The rows so far; more are to be read.
    More(KeyValues),
    /// What the scan answers.
    Done(Result<Answer, Miss>),
}
