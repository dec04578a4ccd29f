//! The frames of a film, one a line.
ghost use Rattle.std.specs.Prelude.{◌≡◌, Some, reverse, slice_get, IfSome};
ghost use Rattle.tx_trace.specs.declared.taken_log.TakenLog.{TakenLog};
ghost use Rattle.tx_film.specs.Films.{count_in, count_before, part, takings_at, steps_at};

use std::marker::Model;
use tx_cells::ShownKey;
use tx_core::Body;
use tx_machine::Step;
use tx_ops::SessionStage;
use tx_reply::ScriptReply;
use tx_text::End;
use tx_trace::{Taking, Trace};
use tx_types::Cause;

/// What stands on a key.
#[derive(Drop)]
pub struct KeyShown {
    /// Its place among the keys that are shown.
    pub key: usize,
    pub shown: ShownKey,
}

/// What a line did.
#[derive(Drop)]
pub struct Frame {
    /// Its reply; or the cause why it is a fault, which is the last line that was played.
    pub reply: Result<ScriptReply, Cause>,
    /// How many requests regions had taken once it was played.
    pub(crate) takings: usize,
    /// How many steps of the machine there were then.
    pub(crate) steps: usize,
    /// What then stood on the keys, of those that are shown, to which its requests went.
    pub keys: Vec<KeyShown>,
    /// What the request asks that it holds on its way, where it holds one.
    pub held: Option<Body>,
    /// How far its session is then, where that is live.
    pub stage: Option<SessionStage>,
}

/// What the lines of a script did that was played, one after another, up to a fault. Contracts see
/// its frames, what regions took, the machine's steps, and how the script ended.
#[derive(Drop)]
pub struct Film {
    frames: Vec<Frame>,
    trace: Trace,
    end: End,
    stage: Option<SessionStage>,
}

impl Model for Film {
    ghost use Rattle.tx_film.specs.Films.{FilmParts, film_parts};

    ghost Value = { FilmParts };

    ghost view = { λ f. film_parts f.frames.items f.trace f.end };
}

// The part from one count up to another; empty where there is no such part.
fn part_of<T>(all: &[T], from: usize, to: usize) -> &[T]
    ensures { result.now ≡ part all.now from to }
{
    if from <= to && to <= all.len() {
        &all[from..to]
    } else {
        &[]
    }
}

impl Film {
    /// The film of these frames, of a play that ended so: None where what regions took was not
    /// kept.
    pub(crate) fn new(
        frames: Vec<Frame>,
        trace: Trace,
        end: End,
        stage: Option<SessionStage>,
    ) -> Option<Film>
        ensures { IfSome result (λ film. (t : TakenLog) × (trace.taken ≡ Some t)
            × (film ≡ record {
              frames = frames.items;
              takings = reverse t.takings.items;
              steps = trace.steps;
              ended = end;
            })) }
    {
        if trace.takings().is_none() {
            return None;
        }
        Some(Film {
            frames,
            trace,
            end,
            stage,
        })
    }

    /// How the script ended.
    pub fn end(&self) -> End
        ensures { result ≡ self.now.ended }
    {
        self.end
    }

    /// Of a fault that may not draw, commit or abort, how far its session was.
    pub fn stage(&self) -> Option<SessionStage> {
        self.stage
    }

    /// A frame for each line that was played.
    pub fn frames(&self) -> &[Frame]
        ensures { result.now ≡ self.now.frames }
    {
        self.frames.as_slice()
    }

    /// All steps of the machine, oldest first.
    pub fn all_steps(&self) -> &[Step]
        ensures { reverse result.now ≡ self.now.steps }
    {
        self.trace.steps()
    }

    // How many requests had been taken, and how many steps there were, once the line at this place
    // was played; none where it was not.
    fn counts_at(&self, place: usize) -> (usize, usize)
        ensures takings { result.0 ≡ count_in (λ f. f.takings) (slice_get self.now.frames place) }
        ensures steps { result.1 ≡ count_in (λ f. f.steps) (slice_get self.now.frames place) }
    {
        match self.frames.get(place) {
            Some(frame) => (frame.takings, frame.steps),
            None => (0, 0),
        }
    }

    // The same before the line at this place.
    fn counts_before(&self, place: usize) -> (usize, usize)
        ensures takings { result.0 ≡ count_before (λ f. f.takings) self.now.frames place }
        ensures steps { result.1 ≡ count_before (λ f. f.steps) self.now.frames place }
    {
        if place == 0 {
            (0, 0)
        } else {
            self.counts_at(place - 1)
        }
    }

    /// The requests that regions took by the line at this place, in order, with their answers.
    pub fn takings(&self, place: usize) -> &[Taking]
        ensures { result.now ≡ takings_at self.now place }
    {
        let (from, _) = self.counts_before(place);
        let (to, _) = self.counts_at(place);
        part_of(self.trace.takings().unwrap_or_default(), from, to)
    }

    /// The steps of the machine that came with the line at this place, in order.
    pub fn steps(&self, place: usize) -> &[Step]
        ensures { result.now ≡ steps_at self.now place }
    {
        let (_, from) = self.counts_before(place);
        let (_, to) = self.counts_at(place);
        part_of(self.trace.steps(), from, to)
    }
}
