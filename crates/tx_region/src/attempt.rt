//! One try of a request, in one place.
ghost use Rattle.std.specs.Prelude.{◌≡◌, None, IsSomeAnd};
ghost use Rattle.tx_region.specs.KeyPlans.{IsCopyFor, IsPlanFor};

use crate::copy::{KeyView, Loaded, RegionNumbers, no_view};
use crate::copy_plan::plan;
use std::marker::Model;
use tx_core::SeatNo;
use tx_journal::{AnswerWithLock, JournalId, Request, Told};
use tx_spelling::KeyBytes;
use tx_types::Ts;

/// What a region had seen when a key was copied, and the key, as it is spelt.
#[derive(Drop)]
pub(crate) struct Seen<J: JournalId> {
    pub(crate) told: Told<J>,
    pub(crate) bytes: KeyBytes,
}

/// One try of a request: the copy of what it sees of its key, the plan of that and the answer. It
/// stays in one place, where each call leaves what it makes.
#[derive(Drop)]
pub struct Attempt<J: JournalId> {
    /// Whose key was copied.
    pub(crate) region: SeatNo,
    /// What the region had seen, and the key; none where nothing was copied yet.
    pub(crate) seen: Option<Seen<J>>,
    /// What the request sees of its key.
    pub(crate) view: KeyView,
    /// The region's safe point and that of its last collection.
    pub(crate) numbers: RegionNumbers,
    /// How many requests the region had counted.
    pub(crate) taken: u64,
    /// What the region had loaded.
    pub(crate) loaded: Loaded,
    /// The plan, once it is made.
    pub(crate) planned: Option<tx_plan::Plan>,
    /// The answer, once the plan is applied.
    pub(crate) answer: Option<AnswerWithLock>,
}

impl<J: JournalId> Model for Attempt<J> {
    ghost use Rattle.std.specs.Prelude.{IfSome, option_map, option_and_then};
    ghost use Rattle.tx_region.specs.KeyPlans.{AreOf};
    ghost use Rattle.tx_region.specs.Attempts.{Tried};

    ghost Value = { Tried };

    ghost view = { λ a. record {
      copy = option_map (λ s. record {
        region = a.region;
        events = s.told;
        key = s.bytes;
        view = a.view;
        numbers = a.numbers;
        loaded = a.loaded;
      }) a.seen;
      plan = option_and_then (λ s. option_map (λ p. record {
        region = a.region;
        events = s.told;
        key = s.bytes;
        loaded = a.loaded;
        planned = p;
      }) a.planned) a.seen;
      answer = a.answer;
    } };

    ghost invariant = { λ a. IfSome a.seen (λ s. AreOf s.told a.region a.numbers a.taken a.loaded) };
}

impl<J: JournalId> Attempt<J> {
    /// No try yet, of a region of this number.
    pub fn new(region: SeatNo) -> Attempt<J>
        ensures { (result.copy ≡ None) × (result.plan ≡ None) × (result.answer ≡ None) }
    {
        Attempt {
            region,
            seen: None,
            view: no_view(),
            numbers: RegionNumbers {
                safe: Ts::ZERO,
                collected: Ts::ZERO,
            },
            taken: 0,
            loaded: Loaded {
                last: Ts::ZERO,
                mark: Ts::ZERO,
            },
            planned: None,
            answer: None,
        }
    }

    /// Plans what the region makes of the request for which the copy was made.
    pub fn plan(&mut self, request: &Request<J>)
        requires { IsSomeAnd self.old.copy (λ copy. IsCopyFor request.now copy) }
        ensures plan { IsSomeAnd self.new.plan (λ plan. IsPlanFor request.now plan
            × IsSomeAnd self.old.copy (λ copy. (plan.region ≡ copy.region) × (plan.events ≡ copy.events))) }
        ensures same { self.new.answer ≡ self.old.answer }
    {
        let planned = plan(&mut self.view, &self.numbers, &self.loaded, request.body());
        self.planned = Some(planned);
    }

    /// The answer, which it then has no longer.
    pub fn take_answer(&mut self) -> Option<AnswerWithLock>
        ensures answer { (result ≡ self.old.answer) × (self.new.answer ≡ None) }
        ensures same { (self.new.copy ≡ self.old.copy) × (self.new.plan ≡ self.old.plan) }
    {
        self.answer.take()
    }
}
