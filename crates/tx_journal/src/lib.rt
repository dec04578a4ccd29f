//! The journal: the one piece of memory that threads share without a lock. Behind its words, the
//! last timestamp drawn, the greatest timestamp read and counts of events, stands one history of
//! events, which proofs alone know; each seat knows a prefix of it. A `Told` is such a prefix to
//! be handed on, a `Request` carries the prefix that allows it, and a `Reply` the prefix in which
//! it was answered.
//!
//! ```
//! let opened = Opened::new(alloc, bounds, sessions)?;    // then, in a function generic in J:
//! let (journal, mut seats) = opened.named::<J>(alloc)?;  // first the regions' seats
//! let start = seat.draw(1)?;                             // above all that was drawn before
//! seat.record(&Event::Began(start));                     // may come, whatever others did
//! let request = Request::new(seat.tell(), body);         // allowed by what the seat knows
//! let reply = region.take(request);                      // the region records its answer:
//!                                                        // by `record`, a read by `raise_read`
//! seat.learn(reply.tell(&seat));                         // the seat knows of the answer
//! ```
//!
//! Who opens a journal passes the `Opened` on, with `Brand`, to a function that is generic in `J:
//! JournalId`, and that one names it: the proof of this one call picks the table, the bounds and
//! the number of seats that J stands for (as each test here does).
//!
//! No value of the journal holds a reference: the seats own the table together, and a
//! `Told` owns no memory.
#![tactic(auto)]

mod answer_with_lock;
mod journal;
mod reply;
mod request;
mod seat;
mod sender;
mod told;
mod view;

pub use answer_with_lock::AnswerWithLock;
pub use journal::{Journal, Opened};
pub use reply::Reply;
pub use request::Request;
pub use seat::Seat;
pub use sender::{Lost, ReplyTo, Sender};
pub use told::{Told, Unnamed, one_history};
pub use view::{JournalId, StepEvent};
