//! What a reply line says of a transaction whose lock was met.
ghost use Rattle.std.specs.Prelude.{◌≡◌, ◌++◌, OnOk};
ghost use Rattle.tx_client.specs.declared.resolved.Status.TheVariants as status;
ghost use Rattle.tx_reply.specs.Replies.{status_words};
ghost use Rattle.tx_text.specs.Texts.{members_text};

use std::alloc::AllocError;
use tx_client::{Status, WaitCause};
use tx_text::put_stamped;

#[tactic(auto, unfolding(json::specs::Print::escape_byte))]
fn put_waiting(out: &mut Vec<u8>, cause: WaitCause) -> Result<(), AllocError>
    ensures { OnOk result (out.new.items ≡ out.old.items ++ members_text (status_words (status.Waiting cause))) }
{
    match cause {
        WaitCause::Live => out.extend_from_slice(b",\"waiting\",\"live\""),
        WaitCause::NotFound => out.extend_from_slice(b",\"waiting\",\"not-found\""),
        WaitCause::Reply => out.extend_from_slice(b",\"waiting\",\"lost\""),
        WaitCause::BelowSafePoint => out.extend_from_slice(b",\"waiting\",\"E7\""),
        WaitCause::OutOfMemory => out.extend_from_slice(b",\"waiting\",\"E12\""),
    }
}

/// Appends the words of a status, each with a comma before it.
#[tactic(auto, unfolding(json::specs::Print::escape_byte))]
pub(crate) fn put_status(out: &mut Vec<u8>, status: Status) -> Result<(), AllocError>
    ensures { OnOk result (out.new.items ≡ out.old.items ++ members_text (status_words status)) }
{
    match status {
        Status::Committed(commit) => put_stamped(out, b",\"committed\"", commit.get()),
        Status::Aborted => out.extend_from_slice(b",\"aborted\""),
        Status::Pushed(minimum) => put_stamped(out, b",\"pushed\"", minimum.get()),
        Status::Waiting(cause) => put_waiting(out, cause),
    }
}
