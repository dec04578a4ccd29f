//! Ways to the regions: what sends a request.

/// No reply came.
#[derive(Clone, Copy, Debug, Drop)]
pub struct Lost;

/// A reply, with the request that it is to.
pub trait ReplyTo<Q>: Drop {
    ghost use Rattle.std.specs.Prelude.{◌≡◌};

    /// The request.
    ghost asked: { Self → Q };

    /// It has no answer yet.
    ghost is_open: { Self → Type 0 };

    /// The request alone.
    fn into_request(self) -> Q
        ensures { result ≡ asked self };
}

/// A way to the regions. It may lose, hold or repeat a request. `Q` is the journal's `Request`,
/// `R` its `Reply`.
pub trait Sender<Q, R: ReplyTo<Q>> {
    ghost use Rattle.std.specs.Prelude.{◌≡◌, ◌<◌, Result, List, length, IfSome, IsSomeAnd};
    ghost use Rattle.tx_types.specs.declared.key.Key.{Key};
    ghost use Rattle.tx_types.specs.Keys.{AreRising};
    ghost use Rattle.tx_journal.specs.declared.sender.Lost.{Lost};
    ghost use Rattle.tx_journal.specs.Senders.{reached};

    /// Which requests it takes.
    ghost fits: { Self → Q → Type 0 };

    /// How its value before, a request, what comes of it, and its value after belong together.
    ghost sends: { Self → Q → Result R Lost → Self → Type 0 };

    /// The keys between the regions.
    ghost keys_between: { Self → List Key };

    /// Sends a request, once.
    fn send(&mut self, request: Q) -> Result<R, Lost>
        requires { fits self.old request }
        ensures { sends self.old request result self.new };

    /// Sends the request of the reply that is at a place, which has no answer yet, once, and leaves
    /// there what comes of it: its reply, or none. A way that hands the reply on as it lies moves
    /// nothing of a request; this body sends the request alone.
    fn send_in(&mut self, place: &mut Option<R>)
        requires { IsSomeAnd place.old (λ reply. R.is_open reply × fits self.old (R.asked reply)) }
        ensures { IfSome place.old (λ reply. sends self.old (R.asked reply) (reached place.new) self.new) }
    {
        if let Some(reply) = place.take() {
            if let Ok(reply) = self.send(reply.into_request()) {
                *place = Some(reply);
            }
        }
    }

    /// The keys between the regions: fewer than 1,024, rising.
    fn bounds(&self) -> &[tx_types::Key]
        ensures value { result.now ≡ keys_between self.now }
        ensures rising { AreRising (keys_between self.now) }
        ensures few { length (keys_between self.now) < 1024 };
}
