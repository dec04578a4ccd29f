//! What becomes of a request on its way to a region, by the delivery that is set.
ghost use Rattle.std.specs.Prelude.{◌⊎◌, IfSome, IsSomeAnd, string_bytes};
ghost use Rattle.tx_journal.specs.Senders.{IsHeld, reached};
ghost use Rattle.tx_network.specs.Networks.{region_for, Twice, IsUntaken, HeldUnder, Passes};

use super::{Network, keep};
use tx_cells::Families;
use tx_journal::{JournalId, Lost, Reply, ReplyTo, Request, Sender};
use tx_steps::Delivery;
use tx_types::Key;

impl<J: JournalId, F: Families> Sender<Request<J>, Reply<J>> for Network<J, F> {
    ghost use Rattle.tx_journal.specs.Senders.{IsHeld};
    ghost use Rattle.tx_network.specs.Networks.{Passes};

    ghost fits = { λ a q. IsHeld J.bounds q.body };

    ghost sends = { λ a q r b. Passes J.bounds a.delivery a q r b };

    ghost keys_between = { λ a. J.bounds };

    fn send(&mut self, request: Request<J>) -> Result<Reply<J>, Lost> {
        if let Some(Delivery::Taken) = &self.delivery {
            return Ok(self.take(request));
        }
        self.send_by_delivery(request)
    }

    fn send_in(&mut self, place: &mut Option<Reply<J>>) {
        if let Some(Delivery::Taken) = &self.delivery {
            if let Some(reply) = place {
                self.take_in(reply);
            }
        } else {
            self.send_in_by_delivery(place);
        }
    }

    fn bounds(&self) -> &[Key] {
        self.journal.bounds()
    }
}

impl<J: JournalId, F: Families> Network<J, F> {
    // No region takes a request, since memory was refused.
    #[cold]
    #[inline(never)]
    fn refuse(&mut self, request: Request<J>) -> Reply<J>
        ensures { IsUntaken self.old self.new request result }
    {
        let told = self.newest();
        Reply::new(request, None, told)
    }

    // The region takes a request twice, where there is memory for a copy of it.
    #[cold]
    #[inline(never)]
    fn take_twice(&mut self, mut request: Request<J>) -> Reply<J>
        requires { IsHeld J.bounds request.body }
        ensures { IsUntaken self.old self.new request result
            ⊎ Twice (region_for J.bounds request.body) self.old self.new request result }
    {
        let Ok(copy) = self.regions[0].again(&mut request) else {
            return self.refuse(request);
        };
        drop(self.take(copy));
        self.take(request)
    }

    // A request is held under a name, where there is memory for that.
    #[cold]
    #[inline(never)]
    fn hold(&mut self, name: String, request: Request<J>) -> Result<Reply<J>, Lost>
        requires { IsHeld J.bounds request.body }
        ensures { HeldUnder (string_bytes name) self.old request result self.new }
    {
        match keep(&mut self.held, name, request) {
            Ok(()) => Err(Lost),
            Err(request) => Ok(self.refuse(request)),
        }
    }

    // Sends the request of the reply at a place by the delivery that is set.
    #[cold]
    #[inline(never)]
    fn send_in_by_delivery(&mut self, place: &mut Option<Reply<J>>)
        requires { IsSomeAnd place.old (λ reply. IsHeld J.bounds reply.request.body) }
        ensures { IfSome place.old
            (λ reply. Passes J.bounds self.old.delivery self.old reply.request (reached place.new) self.new) }
    {
        if let Some(reply) = place.take() {
            if let Ok(reply) = self.send_by_delivery(reply.into_request()) {
                *place = Some(reply);
            }
        }
    }

    // Sends a request by the delivery that is set. Few are not simply taken, so it stands apart.
    #[cold]
    #[inline(never)]
    fn send_by_delivery(&mut self, request: Request<J>) -> Result<Reply<J>, Lost>
        requires { IsHeld J.bounds request.body }
        ensures { Passes J.bounds self.old.delivery self.old request result self.new }
    {
        match &self.delivery {
            None => Ok(self.refuse(request)),
            Some(Delivery::Taken) => Ok(self.take(request)),
            Some(Delivery::Lost) => {
                drop(request);
                Err(Lost)
            }
            Some(Delivery::Unanswered) => {
                drop(self.take(request));
                Err(Lost)
            }
            Some(Delivery::Repeated) => Ok(self.take_twice(request)),
            Some(Delivery::Held(name)) => match name.clone() {
                Ok(name) => self.hold(name, request),
                Err(_) => Ok(self.refuse(request)),
            },
        }
    }
}
