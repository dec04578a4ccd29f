//! What all lines of a run were answered, in the parts in which it was handed in.
ghost use Rattle.std.specs.Prelude.{◌≡◌, ◌++◌, [], OnOk};
ghost use Rattle.tx_workload.specs.Replies.{all_of};

use crate::reply::LineReply;
use std::alloc::{AllocError, Global};
use std::marker::Model;

/// Answers, part behind part; no answer is moved to join them. Contracts see all of
/// them in one list.
#[derive(Drop)]
pub struct Replies {
    parts: Vec<Vec<LineReply>>,
}

impl Model for Replies {
    ghost use Rattle.std.specs.Prelude.{List};
    ghost use Rattle.tx_workload.specs.declared.reply.LineReply.{LineReply};
    ghost use Rattle.tx_workload.specs.Replies.{all_of};

    ghost Value = { List LineReply };

    ghost view = { λ r. all_of r.parts.items };
}

impl Replies {
    /// No answer.
    pub fn new(alloc: Global) -> Replies
        ensures { result ≡ [] }
    {
        Replies {
            parts: Vec::new(alloc),
        }
    }

    /// Adds answers behind the others.
    pub fn add(&mut self, part: Vec<LineReply>) -> Result<(), AllocError>
        ensures { OnOk result (self.new ≡ self.old ++ part.items) }
    {
        self.parts.push(part)?;
        Ok(())
    }

    /// The parts, in the order in which they were added.
    pub fn parts(&self) -> &[Vec<LineReply>]
        ensures { all_of result.now ≡ self.now }
    {
        self.parts.as_slice()
    }
}
