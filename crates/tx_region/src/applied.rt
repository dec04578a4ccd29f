//! What comes of a plan.
use tx_journal::{JournalId, Reply, Request};

/// What comes of a plan that is applied: a reply, or the request again, where what was planned is
/// no longer right.
#[derive(Drop)]
pub enum Applied<J: JournalId> {
    Done(Reply<J>),
    Stale(Request<J>),
}
