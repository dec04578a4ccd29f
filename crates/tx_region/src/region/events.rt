//! What a region records: an event for each answer.
ghost use Rattle.std.specs.Prelude.{◌≡◌, ◌∷◌, max, Some};
ghost use Rattle.tx_plan.specs.Plans.{read_upto};
ghost use Rattle.tx_core.specs.declared.event.Event.TheVariants as events;
ghost use Rattle.tx_core.specs.ReadMarks.{max_ts};
ghost use Rattle.tx_core.specs.Recording.{MayRecord};
ghost use Rattle.tx_journal.specs.Known.{DrawsNothing, HasRecorded};
ghost use Rattle.tx_journal.specs.Replies.{IsGiven};
ghost use Rattle.tx_region.specs.TakenRequests.{Knows};

use crate::records::Executed;
use std::marker::Brand;
use tx_core::{Answer, Body};
use tx_journal::{AnswerWithLock, JournalId, Request, Seat, StepEvent, Told};
use tx_types::Ts;

// Records the event that the call picks, which reads at `at`. Where nothing above that was read
// yet, it raises the greatest timestamp read; a read at or below that, as most are, only looks at
// it.
fn record_read<J: JournalId, E: StepEvent>(seat: &mut Seat<J>, at: Ts)
    requires quiet { DrawsNothing E.event }
    requires right { MayRecord J.bounds seat.old.seat seat.old.events E.event }
    requires read { max_ts (E.event ∷ seat.old.events) ≡ max (max_ts seat.old.events) at }
    ensures same { (seat.new.seat ≡ seat.old.seat) × (seat.new.ticks ≡ seat.old.ticks) }
    ensures added { HasRecorded J.bounds seat.old.seat seat.old.events E.event seat.new.events }
{
    if seat.max_ts() < at {
        seat.raise_read_as::<E>(at);
    } else {
        seat.record_as::<E>();
    }
}

// Records the event that the call picks: the region of this seat, which loaded `loaded`, answered a
// request so, and read at `read`, if it read. The event of a read raises the greatest timestamp
// read.
fn record_event<J: JournalId, E: StepEvent>(
    seat: &mut Seat<J>,
    loaded: Ts,
    body: &Body,
    answer: &Answer,
    read: Option<Ts>,
)
    requires is { E.event ≡ events.Took record {
      region = seat.old.seat;
      body = body.now;
      loaded = loaded;
      answer = answer.now;
    } }
    requires right { MayRecord J.bounds seat.old.seat seat.old.events E.event }
    requires read { max_ts (E.event ∷ seat.old.events) ≡ read_upto read (max_ts seat.old.events) }
    ensures same { (seat.new.seat ≡ seat.old.seat) × (seat.new.ticks ≡ seat.old.ticks) }
    ensures added { HasRecorded J.bounds seat.old.seat seat.old.events E.event seat.new.events }
{
    let _ = loaded;
    let _ = body;
    let _ = answer;
    match read {
        None => seat.record_as::<E>(),
        Some(at) => record_read::<J, E>(seat, at),
    }
}

// Records that the region of this seat, which loaded `loaded`, answered a request so, and read at
// `read`, if it read.
fn record_taken<J: JournalId>(
    seat: &mut Seat<J>,
    loaded: Ts,
    body: &Body,
    answer: &Answer,
    read: Option<Ts>,
)
    requires right { MayRecord J.bounds seat.old.seat seat.old.events (events.Took record {
      region = seat.old.seat;
      body = body.now;
      loaded = loaded;
      answer = answer.now;
    }) }
    requires read { max_ts (events.Took record {
      region = seat.old.seat;
      body = body.now;
      loaded = loaded;
      answer = answer.now;
    } ∷ seat.old.events) ≡ read_upto read (max_ts seat.old.events) }
    ensures same { (seat.new.seat ≡ seat.old.seat) × (seat.new.ticks ≡ seat.old.ticks) }
    ensures added { HasRecorded J.bounds seat.old.seat seat.old.events (events.Took record {
      region = seat.old.seat;
      body = body.now;
      loaded = loaded;
      answer = answer.now;
    }) seat.new.events }
{
    record_event::<J, Brand>(seat, loaded, body, answer, read);
}

/// Records that the region of this seat, which loaded `loaded`, answered a request so, and leaves
/// the answer at a place.
#[inline(always)]
pub(crate) fn note_done<J: JournalId>(
    seat: &mut Seat<J>,
    request: &Request<J>,
    loaded: Ts,
    done: Executed,
    place: &mut Option<AnswerWithLock>,
) -> Told<J>
    requires right { MayRecord J.bounds seat.old.seat seat.old.events (events.Took record {
      region = seat.old.seat;
      body = request.now.body;
      loaded = loaded;
      answer = done.answer;
    }) }
    requires read { max_ts (events.Took record {
      region = seat.old.seat;
      body = request.now.body;
      loaded = loaded;
      answer = done.answer;
    } ∷ seat.old.events) ≡ read_upto done.read (max_ts seat.old.events) }
    requires knows { Knows request.now.by seat.old.events loaded }
    ensures same { (seat.new.seat ≡ seat.old.seat) × (seat.new.ticks ≡ seat.old.ticks) }
    ensures told { seat.new.events ≡ result }
    ensures answer { place.new ≡ Some done.answer }
    ensures added { HasRecorded J.bounds seat.old.seat seat.old.events (events.Took record {
      region = seat.old.seat;
      body = request.now.body;
      loaded = loaded;
      answer = done.answer;
    }) seat.new.events }
    ensures given { IsGiven J.bounds (record { request = request.now; answer = place.new; events = result }) }
{
    let Executed { answer, read } = done;
    record_taken(seat, loaded, request.body(), answer.answer(), read);
    *place = Some(answer);
    seat.tell()
}
