//! Replies that say no outcome.
ghost use Rattle.std.specs.Prelude.{◌≡◌, false};
ghost use Rattle.tx_transfer.specs.PlainReplies.{says_outcome};

use tx_reply::ScriptReply;

/// A reply that says no outcome.
pub struct PlainReply {
    reply: ScriptReply,
    ghost quiet: { says_outcome reply ≡ false },
}

// A call in place of the drop of each reply that there is, wherever one is dropped.
impl Drop for PlainReply {
    fn drop(self) {
        let Self { reply: _ } = self;
    }
}

impl PlainReply {
    pub fn new(reply: ScriptReply) -> PlainReply
        requires { says_outcome reply ≡ false }
        ensures { result.reply ≡ reply }
    {
        PlainReply { reply }
    }

    pub fn reply(&self) -> &ScriptReply
        ensures { result.now ≡ self.now.reply }
    {
        &self.reply
    }
}
