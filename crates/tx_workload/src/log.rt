//! What the lines of one session were answered, with what its session had seen.
ghost use Rattle.std.specs.Prelude.{◌≡◌, ◌∷◌, ◌++◌, All, [], None, if◌then◌else◌, true, false, IfErr, IfOk, IfSome, OnOk, OnErr};
ghost use Rattle.tx_client.specs.Calls.{HasHeard};
ghost use Rattle.tx_transaction.specs.Sessions.{finish_of};
ghost use Rattle.tx_core.specs.declared.event.Outcome.{Outcome};
ghost use Rattle.tx_core.specs.Histories.{Begins};
ghost use Rattle.tx_workload.specs.Logs.{CanTell, EndsOutOfOrder, HasFinished, IsAnswered, KeepsAnswer, KeepsOutcome, TellsBy, TellsNone, answer_to};
ghost use Rattle.tx_workload.specs.declared.reply.LineAnswer.TheVariants.{Plain, Ended};
ghost use Rattle.tx_transfer.specs.Sources.{HasPair};
ghost use Rattle.tx_workload.specs.Pairs.{TellsPair};
ghost use Rattle.tx_workload.specs.Steps.{SaysStep};
ghost use Rattle.tx_workload.specs.Tells.{TellsLine};
ghost use Rattle.tx_transfer.specs.Transfers.{MovesSome};

use crate::key_pair::KeyPair;
use crate::reply::{LineAnswer, LineReply};
use std::marker::{Model, PhantomData};
use std::mem::replace;
use tx_client::Session;
use tx_core::{Outcome, SeatNo};
use tx_journal::{JournalId, Seat, Told};
use tx_transfer::{PlainReply, Source};
use tx_types::{Cause, Ts};

/// The answers of a session's lines, each of which tells of what the log was told. Each outcome
/// among them was answered there by the session's seat, no two are of one transaction, and each
/// comes with the keys of the transfer that its line says.
#[derive(Drop)]
pub struct RunLog<J: JournalId, L: Source> {
    seat: SeatNo,
    told: Told<J>,
    replies: Vec<LineReply>,
    /// Whether an answer was lost, for want of memory.
    lost: bool,
    of: PhantomData<L>,
}

impl<J: JournalId, L: Source> Model for RunLog<J, L> {
    ghost use Rattle.std.specs.Prelude.{All};
    ghost use Rattle.tx_workload.specs.Logs.{Logged, TellsBy};
    ghost use Rattle.tx_workload.specs.Pairs.{TellsPair};
    ghost use Rattle.tx_workload.specs.Tells.{TellsLine};

    ghost Value = { Logged };

    ghost view = { λ l. record { seat = l.seat; told = l.told; replies = l.replies.items; lost = l.lost } };

    ghost invariant = { λ l. TellsBy l.told l.seat l.replies.items × All (TellsPair L.text) l.replies.items
        × All (TellsLine L.text J.bounds l.told) l.replies.items };
}

// Adds an answer: whether there was room.
#[inline(always)]
fn add(replies: &mut Vec<LineReply>, reply: LineReply) -> bool
    ensures { replies.new.items ≡ (if result then replies.old.items ++ reply ∷ [] else replies.old.items) }
{
    replies.push(reply).is_ok()
}

impl<J: JournalId, L: Source> RunLog<J, L> {
    /// A log of this seat, in which nothing stands.
    pub fn new(seat: &mut Seat<J>, replies: Vec<LineReply>) -> RunLog<J, L>
        requires { replies.items ≡ [] }
        ensures log { (result.seat ≡ seat.old.seat) × (result.replies ≡ []) × (result.lost ≡ false) }
        ensures same { seat.new ≡ seat.old }
    {
        let number = seat.number();
        let told = seat.tell();
        RunLog {
            seat: number,
            told,
            replies,
            lost: false,
            of: PhantomData,
        }
    }

    /// Keeps an answer that says no outcome, and tells of what the log was told.
    pub fn keep(&mut self, number: u64, answer: Result<PlainReply, Cause>)
        requires { TellsLine L.text J.bounds self.old.told (answer_to number (Plain answer)) }
        ensures same { (self.new.seat ≡ self.old.seat) × (self.new.told ≡ self.old.told) }
        ensures kept { KeepsAnswer self.old number (Plain answer) self.new }
    {
        let answer = LineAnswer::Plain(answer);
        let kept = add(&mut self.replies, LineReply { number, answer });
        self.lost |= !kept;
    }

    /// The number of the line that was answered last, where it was told that its step is out of
    /// order.
    pub fn out_of_order(&self) -> Option<u64>
        ensures { IfSome result (λ number. EndsOutOfOrder number self.now.replies) }
    {
        let last = self.replies.last()?;
        match last.answer {
            LineAnswer::Plain(Err(Cause::Order)) => Some(last.number),
            _ => None,
        }
    }

    // Knows what its session has seen since.
    fn learn(&mut self, seat: &mut Seat<J>)
        requires { Begins self.old.told seat.old.events }
        ensures log { (self.new.seat ≡ self.old.seat) × (self.new.told ≡ seat.old.events)
            × (self.new.replies ≡ self.old.replies) × (self.new.lost ≡ self.old.lost) }
        ensures same { seat.new ≡ seat.old }
    {
        self.told = seat.tell();
    }

    // Keeps an outcome.
    fn keep_outcome(&mut self, number: u64, start: Ts, outcome: &Outcome, keys: Option<KeyPair>)
        requires answered { IsAnswered self.old.told self.old.seat start outcome.now keys }
        requires fresh { TellsNone start self.old.replies }
        requires pair { HasPair L.text number keys }
        requires says { SaysStep L.text number }
        ensures same { self.new.seat ≡ self.old.seat }
        ensures kept { KeepsAnswer self.old number (Ended start outcome.now keys) self.new }
    {
        let answer = LineAnswer::Ended(start, *outcome, keys);
        let kept = add(&mut self.replies, LineReply { number, answer });
        self.lost |= !kept;
    }

    // Keeps the outcome of a session that knew what the log was told, by its seat.
    fn learn_outcome(
        &mut self,
        number: u64,
        start: Ts,
        outcome: Outcome,
        keys: Option<KeyPair>,
        seat: &mut Seat<J>,
    )
        requires tell { CanTell self.old start outcome keys seat.old }
        requires pair { HasPair L.text number keys }
        requires says { SaysStep L.text number }
        ensures same { self.new.seat ≡ self.old.seat }
        ensures kept { KeepsAnswer self.old number (Ended start outcome keys) self.new }
        ensures back { seat.new ≡ seat.old }
    {
        self.learn(seat);
        self.keep_outcome(number, start, &outcome, keys);
    }

    /// Knows what a session has seen, which then knows what the log was told. `by` is a seat of the
    /// journal.
    pub fn hear(&mut self, by: &Seat<J>, session: &mut Session<J>)
        ensures same { (self.new.seat ≡ self.old.seat) × (self.new.replies ≡ self.old.replies)
            × (self.new.lost ≡ self.old.lost) }
        ensures knows { Begins session.old.seat.events self.new.told }
        ensures state { session.new.state ≡ session.old.state }
        ensures heard { HasHeard J.bounds session.old.seat self.old.told session.new.seat }
        ensures told { self.new.told ≡ session.new.seat.events }
    {
        session.learn_told(by.copy(&mut self.told));
        session.show();
        self.told = session.tell();
    }

    /// Ends a transaction, and keeps its outcome: its seat is then free. Where it has no
    /// outcome, the session comes back. `keys` are those that a transfer moves between. A
    /// session of another seat than the log's is not told of: the log has no such session. `by`
    /// is a seat of the journal.
    pub fn finish(
        &mut self,
        by: &Seat<J>,
        number: u64,
        mut session: Session<J>,
        keys: Option<KeyPair>,
    ) -> Result<Seat<J>, Session<J>>
        requires moves { MovesSome keys session.state }
        requires pair { HasPair L.text number keys }
        requires says { SaysStep L.text number }
        ensures same { self.new.seat ≡ self.old.seat }
        ensures kept { OnOk result (KeepsOutcome self.old number keys self.new) }
        ensures none { OnErr result (self.new ≡ self.old) }
        ensures finished { IfOk result (λ seat. (o : Outcome) × HasFinished J.bounds session self.old.told o seat
            × KeepsAnswer self.old number (Ended session.state.start o keys) self.new) }
        ensures open_yet { IfErr result (λ s. (finish_of session.state ≡ None) × (s.state ≡ session.state)
            × HasHeard J.bounds session.seat self.old.told s.seat) }
    {
        session.learn_told(by.copy(&mut self.told));
        session.show();
        if session.transaction().outcome().is_none() {
            return Err(session);
        }
        let start = session.start();
        let Ok((outcome, mut seat)) = session.finish() else {
            unreachable!()
        };
        if seat.number() == self.seat {
            self.learn_outcome(number, start, outcome, keys, &mut seat);
            return Ok(seat);
        }
        self.lost = true;
        Ok(seat)
    }

    /// What the lines were answered, with what the log was told and whether an answer was lost; the
    /// log is then empty, and has lost them. `by` is a seat of the journal.
    pub fn take(&mut self, by: &Seat<J>, empty: Vec<LineReply>) -> RunLog<J, L>
        requires { empty.items ≡ [] }
        ensures same { (self.new.seat ≡ self.old.seat) × (self.new.told ≡ self.old.told) }
        ensures lost { self.new.lost ≡ true }
        ensures log { result ≡ self.old }
    {
        let told = by.copy(&mut self.told);
        RunLog {
            seat: self.seat,
            told,
            replies: replace(&mut self.replies, empty),
            lost: replace(&mut self.lost, true),
            of: PhantomData,
        }
    }

    /// What it was told, the answers, and whether one was lost.
    pub fn into_parts(self) -> (Told<J>, Vec<LineReply>, bool)
        ensures parts { (result.0 ≡ self.told) × (result.1.items ≡ self.replies) × (result.2 ≡ self.lost) }
        ensures told { TellsBy self.told self.seat self.replies }
        ensures pairs { All (TellsPair L.text) self.replies }
        ensures tells { All (TellsLine L.text J.bounds self.told) self.replies }
    {
        let RunLog {
            seat: _,
            told,
            replies,
            lost,
            of: _,
        } = self;
        (told, replies, lost)
    }
}
