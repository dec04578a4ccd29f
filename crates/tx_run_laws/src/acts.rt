//! Laws: what stands behind the replies to acts and calls of a live session.
ghost use Rattle.std.specs.Prelude.{◌≡◌, List, Ok};
ghost use Rattle.tx_types.specs.declared.key.Key.{Key};
ghost use Rattle.tx_plan.specs.declared.answer.Answer.{Answer};
ghost use Rattle.tx_client.specs.Calls.{Seated};
ghost use Rattle.tx_steps.specs.Steps.{Text};
ghost use Rattle.tx_steps.specs.declared.call.Call.{Call};
ghost use Rattle.tx_steps.specs.declared.delivery.Delivery.{Delivery};
ghost use Rattle.tx_steps.specs.declared.op.Op.{Op};
ghost use Rattle.tx_steps.specs.declared.step.Step.TheVariants as step;
ghost use Rattle.tx_reply.specs.declared.reply.ScriptReply.TheVariants as reply;
ghost use Rattle.tx_transfer.specs.declared.plain_reply.PlainReply.{PlainReply};
ghost use Rattle.tx_workload.specs.declared.reply.LineAnswer.TheVariants.{Plain};
ghost use Rattle.tx_run.specs.Played.{Turns, live};
ghost use Rattle.tx_run_laws.specs.Acts.{IsDone, IsReplyTo};

/// No line of a live session is told "ok" without its act: the buffer has just the change, or is
/// declared as it is. What a call is answered is the session's own, or a region's answer to just
/// the request that it sends in the state that its session had; a scan is of its start.
pub fn replies_are_made()
    ensures done { (bounds : List Key) (name : Text) (what : Op Text) (s t : Seated) (p : PlainReply)
        → Turns bounds (step.Act name what) (live s) (Plain (Ok p)) (live t) → p.reply ≡ reply.Fine
        → IsDone bounds what s t }
    ensures answered { (bounds : List Key) (name : Text) (what : Call Text) (delivery : Delivery Text) (s t : Seated)
        (p : PlainReply) (a : Answer) → Turns bounds (step.Send name what delivery) (live s) (Plain (Ok p)) (live t)
        → p.reply ≡ reply.Answered a → IsReplyTo t.seat.events s.state what a }
{}
