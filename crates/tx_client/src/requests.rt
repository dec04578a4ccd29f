//! One request, by a seat.
ghost use Rattle.std.specs.Prelude.{◌≡◌};
ghost use Rattle.tx_core.specs.Allowed.{Allowed};
ghost use Rattle.tx_journal.specs.Senders.{IsHeld, IsSender, reached};
ghost use Rattle.tx_client.specs.Learns.{Learns, response_by, response_of};
ghost use Rattle.tx_client.specs.Facts.{RespondsSo};
ghost use Rattle.tx_client.specs.Calls.{Asks};

use tx_core::{Answer, Body};
use tx_journal::{AnswerWithLock, JournalId, Reply, Request, Seat, Sender};
use tx_transaction::Miss;

// What a reply comes to.
#[inline(always)]
fn response_by(answer: Option<AnswerWithLock>) -> Result<AnswerWithLock, Miss>
    ensures { result ≡ response_by answer }
{
    match answer {
        Some(answer) => Ok(answer),
        None => Err(Miss::Fault),
    }
}

// A seat learns what the reply at a place tells, if one came, and takes its answer.
#[inline(always)]
fn on_reply<J: JournalId>(
    seat: &mut Seat<J>,
    place: &mut Option<Reply<J>>,
) -> Result<AnswerWithLock, Miss>
    ensures response { result ≡ response_of (reached place.old) }
    ensures learns { Learns J.bounds seat.old (reached place.old) seat.new }
{
    match place {
        None => Err(Miss::Lost),
        Some(reply) => {
            let told = reply.tell(&*seat);
            seat.learn(told);
            response_by(reply.take_answer())
        }
    }
}

/// Sends a request, once, that is allowed after what the seat has seen, and learns what is told.
/// With the answer comes a copy of the lock that it names as in the way.
pub(crate) fn ask_with_lock<J: JournalId, S: Sender<Request<J>, Reply<J>>>(
    seat: &mut Seat<J>,
    body: Body,
    sender: &mut S,
) -> Result<AnswerWithLock, Miss>
    requires way { IsSender J.bounds S.fits S.sends S.keys_between }
    requires held { IsHeld J.bounds body }
    requires allowed { Allowed seat.old.events body }
    ensures asked { Asks S.sends J.bounds seat.old body sender.old sender.new result seat.new }
    ensures told { RespondsSo seat.new.events body result }
{
    let asked = seat.tell();
    let told = seat.tell();
    let request = Request::new(asked, body);
    let mut place = Some(Reply::new(request, None, told));
    sender.send_in(&mut place);
    on_reply(seat, &mut place)
}

/// Sends a request, once, that is allowed after what the seat has seen, and learns what is told.
/// `Lost` where no reply came, `Fault` where memory was refused to the region.
pub fn ask<J: JournalId, S: Sender<Request<J>, Reply<J>>>(
    seat: &mut Seat<J>,
    body: Body,
    sender: &mut S,
) -> Result<Answer, Miss>
    requires way { IsSender J.bounds S.fits S.sends S.keys_between }
    requires held { IsHeld J.bounds body }
    requires allowed { Allowed seat.old.events body }
    ensures asked { Asks S.sends J.bounds seat.old body sender.old sender.new result seat.new }
    ensures told { RespondsSo seat.new.events body result }
{
    Ok(ask_with_lock(seat, body, sender)?.into_answer())
}
