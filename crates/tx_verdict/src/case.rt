//! What a verdict is about.

use crate::question::Question;
use tx_recording::Recording;
use tx_views::{Owner, RecordedView};

/// A recording, what its lines say of each value and each read, and what is asked of it.
#[derive(Clone, Copy)]
pub struct Case<'a> {
    pub recording: &'a Recording,
    /// Who put each value, by its number.
    pub owners: &'a [Option<Owner>],
    /// What transactions saw of a key before they put anything there.
    pub views: &'a [RecordedView],
    pub question: Question,
}
