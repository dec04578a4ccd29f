//! Laws: where nobody else acts, what a session makes of a step over a store is the turn of
//! `simulate`, and so is how it begins and ends.
ghost use Rattle.std.specs.Prelude.{◌≡◌, ◌≢◌, ◌∷◌, true, ℕ, List, Some, None, Ok, Err};
ghost use Rattle.tx_types.specs.Names.{is_name};
ghost use Rattle.tx_types.specs.declared.fault.Cause.TheVariants.{Name, Order};
ghost use Rattle.tx_types.specs.declared.key.Key.{Key};
ghost use Rattle.tx_types.specs.declared.lock.LockInfo.{LockInfo};
ghost use Rattle.tx_core.specs.Recording.{owner};
ghost use Rattle.tx_core.specs.declared.event.Event.{Event};
ghost use Rattle.tx_core.specs.declared.event.Event.TheVariants.{Answered};
ghost use Rattle.tx_core.specs.declared.event.Outcome.{Outcome};
ghost use Rattle.tx_journal.specs.Known.{Known};
ghost use Rattle.tx_transaction.specs.Sessions.{finish_of};
ghost use Rattle.tx_client.specs.declared.resolved.Status.{Status};
ghost use Rattle.tx_client.specs.Calls.{Records, Seated};
ghost use Rattle.tx_store.specs.Stores.{Replies};
ghost use Rattle.tx_steps.specs.Steps.{Text};
ghost use Rattle.tx_steps.specs.declared.call.Call.{Call};
ghost use Rattle.tx_steps.specs.declared.delivery.Delivery.{Delivery};
ghost use Rattle.tx_steps.specs.declared.op.Op.{Op};
ghost use Rattle.tx_steps.specs.declared.op.Op.TheVariants as op;
ghost use Rattle.tx_steps.specs.declared.step.Step.{Step};
ghost use Rattle.tx_steps.specs.declared.step.Step.TheVariants as step;
ghost use Rattle.tx_reply.specs.declared.reply.ScriptReply.{ScriptReply};
ghost use Rattle.tx_reply.specs.declared.reply.ScriptReply.TheVariants as reply;
ghost use Rattle.tx_ops.specs.Calls.{Said, call_walk};
ghost use Rattle.tx_network.specs.Networks.{IsSet, NetworkParts};
ghost use Rattle.tx_engine.specs.Semantics.{EngineState, sends_by, turn};
ghost use Rattle.tx_engine.specs.Slots.{Did, GoesTo};
ghost use Rattle.tx_transfer.specs.Acts.{Acts};
ghost use Rattle.tx_transfer.specs.Resolutions.{ResolvesMet};
ghost use Rattle.tx_transfer.specs.Sends.{SendsOver};
ghost use Rattle.tx_transfer.specs.Steps.{Begun, Left};
ghost use Rattle.tx_alone.specs.Resolves.{ResolvesOver};
ghost use Rattle.tx_alone.specs.Ways.{CountsAnswers, IsAlone, MakesBy, PassesSo};
ghost use Rattle.tx_alone.specs.Turns.{AnyMinimum, IsFree, IsLive, IsNamed, IsStepOf, IsTurn, IsTwoPhase, LeastMinimum, MakesAlone, with_begun, with_gone, with_live};

/// A step that is made over a store, where nobody else acts, is the turn of `simulate`: it goes on
/// to just that session and just those events, and is told just that; what its state does not allow
/// stops for the same cause. Regions answer by the same case tables, but that the minimum of an
/// async lock may be any that the tables allow; with the least it is what `simulate` answers, so of
/// a step that prewrites no async commit nothing is free.
pub fn steps_are_turns()
    ensures any { (bounds : List Key) (e : EngineState) (name : Text) (k : ℕ) (what : Step Text) (old new : Seated)
        (said : Said) → IsStepOf name what → MakesAlone bounds e name k what old said new
        → IsTurn AnyMinimum bounds what e said (with_live e k new) }
    ensures least { (bounds : List Key) (e : EngineState) (name : Text) (k : ℕ) (what : Step Text) (old new : Seated)
        (said : Said) → IsStepOf name what → IsTwoPhase what old.state
        → MakesAlone bounds e name k what old said new → IsTurn LeastMinimum bounds what e said (with_live e k new) }
    ensures simulated { (bounds : List Key) (e next : EngineState) (what : Step Text) (told : ScriptReply)
        → IsTurn LeastMinimum bounds what e (Ok told) next
        → GoesTo bounds (λ refused. turn bounds refused what e) told next }
{}

/// So is what begins a session and what ends it: where its seat begins, it draws the next number
/// and is live there; it answers its outcome, or stops, and is gone. `finish` stops for `Order`
/// where there is no outcome yet, and a step of a name that no session has for `Name`, but for a
/// `begin` that has a name.
pub fn lives_are_turns()
    ensures begins { (bounds : List Key) (e : EngineState) (name : Text) (k : ℕ) (seat : Known) (s : Seated)
        → IsFree bounds e name k seat → is_name name ≡ true → Begun bounds seat s → IsAlone seat 0 s.seat
        → IsTurn LeastMinimum bounds (step.Begin name) e (Ok (reply.Start s.state.start)) (with_begun e name k s) }
    ensures finishes { (bounds : List Key) (e : EngineState) (name : Text) (k : ℕ) (old : Seated) (seat : Known)
        (o : Outcome) → IsLive bounds e name k old → finish_of old.state ≡ Some o
        → Records bounds old.seat (Answered old.state.start o) seat → IsAlone old.seat 0 seat
        → IsTurn LeastMinimum bounds (step.Act name op.Finish) e (Ok (reply.Ended o)) (with_gone e name k seat) }
    ensures open_yet { (bounds : List Key) (e next : EngineState) (name : Text) (k : ℕ) (old : Seated)
        → IsLive bounds e name k old → finish_of old.state ≡ None
        → IsTurn LeastMinimum bounds (step.Act name op.Finish) e (Err Order) next }
    ensures stops { (bounds : List Key) (e : EngineState) (name : Text) (k : ℕ) (old : Seated) (seat : Known)
        → IsLive bounds e name k old → Left bounds old seat → IsAlone old.seat 0 seat
        → IsTurn LeastMinimum bounds (step.Act name op.Stop) e (Ok reply.Fine) (with_gone e name k seat) }
    ensures unopened { (bounds : List Key) (e next : EngineState) (name : Text) (what : Step Text)
        → e.names name ≡ None → IsNamed name what → IsTurn LeastMinimum bounds what e (Err Name) next }
{}

/// So is a step that resolves the lock a session met, by a seat of its own, as `run` does it: what
/// is found, and what the session learns of it. With no lock met it stops for `Order`.
pub fn resolves_are_turns()
    ensures turns { (bounds : List Key) (e : EngineState) (name : Text) (k now : ℕ) (old new : Seated) (found : Status)
        (answered : ℕ) → IsLive bounds e name k old → ResolvesOver bounds now old found new answered
        → IsAlone old.seat answered new.seat
        → IsTurn LeastMinimum bounds (step.Act name (op.Resolve now)) e (Ok (reply.Status found)) (with_live e k new) }
    ensures unmet { (bounds : List Key) (e next : EngineState) (name : Text) (k now : ℕ) (old : Seated)
        → IsLive bounds e name k old → old.state.met ≡ None
        → IsTurn LeastMinimum bounds (step.Act name (op.Resolve now)) e (Err Order) next }
    ensures over { (bounds : List Key) (now : ℕ) (old new : Seated) (resolver after : Known) (lock : LockInfo)
        (found : Status) → old.state.met ≡ Some lock
        → ResolvesMet bounds old resolver (Some lock) (Some now) (Some found) new after
        → (answered : ℕ) × ResolvesOver bounds now old found new answered }
{}

/// A call over the network of one thread is the turn of `simulate`, whatever becomes of its
/// requests: lost, unanswered, taken twice or held. `tx_engine` sets what becomes of them, and then
/// sends so.
pub fn calls_are_turns()
    ensures { (bounds : List Key) (name : Text) (what : Call Text) (delivery : Delivery Text) (old new : Seated)
        (from at to : NetworkParts) (said : Said) → IsSet delivery from at
        → MakesBy (PassesSo bounds) bounds (step.Send name what delivery) old at said new to
        → Did bounds (λ refused engine k s. sends_by refused engine k s bounds what delivery) said old new from to }
{}

/// What tx_transfer says of an act and of a call of `run` is this relation over a store; and the
/// other way round. Of an act that resolves a lock it says more, and nothing is said here.
pub fn a_store_is_a_way()
    ensures acts { (bounds : List Key) (name : Text) (what : Op Text) (old new : Seated) (resolver after : Known)
        (said : Said) → IsStepOf name (step.Act name what) → Acts bounds what old resolver said new after
        → MakesBy (Replies {S = Unit {0}}) bounds (step.Act name what) old tt said new tt }
    ensures acted { (bounds : List Key) (name : Text) (what : Op Text) (old new : Seated) (resolver : Known)
        (said : Said) → IsStepOf name (step.Act name what)
        → MakesBy (Replies {S = Unit {0}}) bounds (step.Act name what) old tt said new tt
        → Acts bounds what old resolver said new resolver }
    ensures calls { (bounds : List Key) (name : Text) (what : Call Text) (delivery : Delivery Text) (old new : Seated)
        (said : Said) → SendsOver bounds old.seat (call_walk bounds old.state what) (new.state, said) new.seat
        → MakesBy (Replies {S = Unit {0}}) bounds (step.Send name what delivery) old tt said new tt }
    ensures called { (bounds : List Key) (name : Text) (what : Call Text) (delivery : Delivery Text) (old new : Seated)
        (said : Said) → MakesBy (Replies {S = Unit {0}}) bounds (step.Send name what delivery) old tt said new tt
        → SendsOver bounds old.seat (call_walk bounds old.state what) (new.state, said) new.seat }
{}

/// Whatever a session makes over a store, its answers can be counted, and what is counted was made
/// over a store.
pub fn answers_are_counted()
    ensures counts { (bounds : List Key) (what : Step Text) (old new : Seated) (said : Said)
        → MakesBy (Replies {S = Unit {0}}) bounds what old tt said new tt
        → (answered : ℕ) × MakesBy CountsAnswers bounds what old 0 said new answered }
    ensures stores { (bounds : List Key) (what : Step Text) (old new : Seated) (said : Said) (answered : ℕ)
        → MakesBy CountsAnswers bounds what old 0 said new answered
        → MakesBy (Replies {S = Unit {0}}) bounds what old tt said new tt }
{}

/// That nobody else acted is so where just this event came: one of the seat's own, or one by which
/// a region answered it.
pub fn one_event_is_alone()
    ensures own { (old new : Known) (e : Event) → new.seat ≡ old.seat → owner old.events e ≡ Some old.seat
        → new.events ≡ e ∷ old.events → IsAlone old 0 new }
    ensures answered { (old new : Known) (e : Event) → new.seat ≡ old.seat → owner old.events e ≢ Some old.seat
        → new.events ≡ e ∷ old.events → IsAlone old 1 new }
{}
