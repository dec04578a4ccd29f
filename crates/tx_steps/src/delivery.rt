//! What becomes of a request on its way to the store.
ghost use Rattle.std.specs.Prelude.{◌≡◌, option_map};
ghost use Rattle.tx_text.specs.Parts.{parts_items};
ghost use Rattle.tx_steps.specs.Steps.{delivered, is_taken, delivery_word as word_in, delivery_said};

use crate::members::{last_text, none_left, text};
use tx_text::Part;

/// What becomes of a request.
#[derive(Clone, Copy, Debug, Drop)]
pub enum Delivery<S> {
    /// The store takes it, and its reply comes.
    Taken,
    /// The store never takes it.
    Lost,
    /// The store takes it, and its reply is lost.
    Unanswered,
    /// The store takes it twice in a row, and the second reply comes.
    Repeated,
    /// It is kept under a name and not taken.
    Held(S),
}

impl Delivery<&str> {
    /// Whether the request simply arrives.
    pub fn is_taken(&self) -> bool
        ensures { result ≡ is_taken (delivered self.now) }
    {
        matches!(self, Delivery::Taken)
    }
}

// The words that stand alone.
fn delivery_word<'a>(word: &str) -> Option<Delivery<&'a str>>
    ensures { option_map delivered result ≡ word_in word.now }
{
    if word == "lose" {
        Some(Delivery::Lost)
    } else if word == "lose-reply" {
        Some(Delivery::Unanswered)
    } else if word == "repeat" {
        Some(Delivery::Repeated)
    } else {
        None
    }
}

// The delivery that a word says, where there is one.
#[inline(never)]
fn said_delivery<'a>(members: &[Part<'a>]) -> Option<Delivery<&'a str>>
    ensures { option_map delivered result ≡ delivery_said (parts_items members.now) }
{
    if none_left(members) {
        return Some(Delivery::Taken);
    }
    let (word, rest) = text(members)?;
    if word == "hold" {
        return Some(Delivery::Held(last_text(rest)?));
    }
    let found = delivery_word(word)?;
    if none_left(rest) { Some(found) } else { None }
}

/// The delivery that the last members of a step say: none is `Taken`.
#[inline(always)]
pub(crate) fn delivery_of<'a>(members: &[Part<'a>]) -> Option<Delivery<&'a str>>
    ensures { option_map delivered result ≡ delivery_said (parts_items members.now) }
{
    if none_left(members) {
        Some(Delivery::Taken)
    } else {
        said_delivery(members)
    }
}
