//! What nothing explains of what is left nothing explains of the whole.
ghost use Rattle.std.specs.Prelude.{ℕ, Bool};
ghost use Rattle.tx_recording.specs.declared.recording.Recording.{Recording};
ghost use Rattle.tx_verdict.specs.declared.question.Question.{Question};
ghost use Rattle.tx_verdict.specs.Verdicts.{IsRefused};
ghost use Rattle.tx_onward.specs.Left.{IsLeft};

/// A no of what is left of a recording is a no of the whole.
pub fn refused_left_refuses_whole()
    ensures { (r : Recording) (told : ℕ → Bool) (left : Recording) (asked : Question)
        → IsLeft r told left → IsRefused left asked → IsRefused r asked }
{}
