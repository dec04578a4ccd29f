//! Laws: what a line of a run does is what `simulate` does, where nobody else acts.
ghost use Rattle.std.specs.Prelude.{◌<◌, ℕ, List, None, Result, Ok, Err};
ghost use Rattle.tx_types.specs.declared.fault.Cause.{Cause};
ghost use Rattle.tx_types.specs.declared.key.Key.{Key};
ghost use Rattle.tx_core.specs.declared.event.Outcome.{Outcome};
ghost use Rattle.tx_journal.specs.Known.{Known};
ghost use Rattle.tx_client.specs.Calls.{Seated};
ghost use Rattle.tx_store.specs.Stores.{Replies};
ghost use Rattle.tx_steps.specs.Steps.{Text};
ghost use Rattle.tx_steps.specs.declared.op.Op.TheVariants as op;
ghost use Rattle.tx_steps.specs.declared.step.Step.{Step};
ghost use Rattle.tx_steps.specs.declared.step.Step.TheVariants as step;
ghost use Rattle.tx_reply.specs.declared.reply.ScriptReply.TheVariants as reply;
ghost use Rattle.tx_ops.specs.Calls.{Said};
ghost use Rattle.tx_engine.specs.Semantics.{EngineState};
ghost use Rattle.tx_transfer.specs.declared.plain_reply.PlainReply.{PlainReply};
ghost use Rattle.tx_transfer.specs.Replies.{said_of};
ghost use Rattle.tx_workload.specs.declared.reply.LineAnswer.TheVariants.{Plain, Ended};
ghost use Rattle.tx_run.specs.Played.{Makes, Turns, free, live};
ghost use Rattle.tx_alone.specs.Ways.{CountsAnswers, IsAlone, MakesBy};
ghost use Rattle.tx_alone.specs.Turns.{AnyMinimum, IsFree, IsLive, IsStepOf, IsTurn, IsTwoPhase, LeastMinimum, with_begun, with_gone, with_live};

/// What a session of a run makes of a step is what it makes over a store, by the relation that
/// `simulate` meets over its network; and the other way round.
pub fn one_relation()
    ensures makes { (bounds : List Key) (name : Text) (what : Step Text) (old new : Seated) (said : Said)
        → IsStepOf name what → Makes bounds what old said new
        → MakesBy (Replies {S = Unit {0}}) bounds what old tt said new tt }
    ensures back { (bounds : List Key) (name : Text) (what : Step Text) (old new : Seated) (said : Said)
        → IsStepOf name what → MakesBy (Replies {S = Unit {0}}) bounds what old tt said new tt
        → Makes bounds what old said new }
{}

/// A line of a run in which nobody else acts is the turn of `simulate`. An edit, a declaration, a
/// draw and a call go on to the same session, the same events and the same reply, or stop for the
/// same cause: of their answers so many events came, and where no more came that the session did
/// not make itself, the turn leads there, with the least minimum but for a prewrite of an async
/// commit. So does a line that begins, that answers an outcome, and that stops.
pub fn lines_are_turns()
    ensures steps { (bounds : List Key) (name : Text) (e : EngineState) (k : ℕ) (what : Step Text) (old new : Seated)
        (answer : Result PlainReply Cause) → IsStepOf name what → IsLive bounds e name k old → 0 < old.seat.ticks
        → Turns bounds what (live old) (Plain answer) (live new)
        → (answered : ℕ) × MakesBy CountsAnswers bounds what old 0 (said_of answer) new answered
        × (IsAlone old.seat answered new.seat → IsTurn AnyMinimum bounds what e (said_of answer) (with_live e k new))
        × (IsAlone old.seat answered new.seat → IsTwoPhase what old.state
        → IsTurn LeastMinimum bounds what e (said_of answer) (with_live e k new)) }
    ensures begins { (bounds : List Key) (name : Text) (e : EngineState) (k : ℕ) (seat : Known) (s : Seated)
        (p : PlainReply) → IsFree bounds e name k seat
        → Turns bounds (step.Begin name) (free seat) (Plain (Ok p)) (live s) → IsAlone seat 0 s.seat
        → IsTurn LeastMinimum bounds (step.Begin name) e (Ok p.reply) (with_begun e name k s) }
    ensures ends { (bounds : List Key) (name : Text) (e : EngineState) (k : ℕ) (s : Seated) (seat : Known) (start : ℕ)
        (o : Outcome) → IsLive bounds e name k s
        → Turns bounds (step.Act name op.Finish) (live s) (Ended start o None) (free seat) → IsAlone s.seat 0 seat
        → IsTurn LeastMinimum bounds (step.Act name op.Finish) e (Ok (reply.Ended o)) (with_gone e name k seat) }
    ensures open_yet { (bounds : List Key) (name : Text) (e : EngineState) (k : ℕ) (s : Seated) (seat : Known)
        (why : Cause) (next : EngineState) → IsLive bounds e name k s
        → Turns bounds (step.Act name op.Finish) (live s) (Plain (Err why)) (free seat)
        → IsTurn LeastMinimum bounds (step.Act name op.Finish) e (Err why) next }
    ensures stops { (bounds : List Key) (name : Text) (e : EngineState) (k : ℕ) (s : Seated) (seat : Known)
        (p : PlainReply) → IsLive bounds e name k s
        → Turns bounds (step.Act name op.Stop) (live s) (Plain (Ok p)) (free seat) → IsAlone s.seat 0 seat
        → IsTurn LeastMinimum bounds (step.Act name op.Stop) e (Ok p.reply) (with_gone e name k seat) }
{}
