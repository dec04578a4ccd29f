//! What the clients of a store share beside it.
use crate::live::Live;
use crate::stats::Tally;

/// What the clients of a store share beside it: at which timestamps they read, what they count, and
/// how many of them run.
#[derive(Clone, Copy)]
pub(crate) struct Shared<'a> {
    pub(crate) live: &'a Live,
    pub(crate) tally: &'a Tally,
    pub(crate) clients: usize,
}
