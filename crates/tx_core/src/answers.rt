//! A law of the case tables: where a history is known, so is each answer.
ghost use Rattle.std.specs.Prelude.{◌≡◌, ℕ, List};
ghost use Rattle.tx_core.specs.Histories.{History};
ghost use Rattle.tx_core.specs.ReadMarks.{AnswersNext};
ghost use Rattle.tx_core.specs.Worlds.{IsWorldRun};
ghost use Rattle.tx_plan.specs.declared.answer.Answer.{Answer};
ghost use Rattle.tx_plan.specs.declared.body.Body.{Body};
ghost use Rattle.tx_types.specs.declared.key.Key.{Key};

/// After a world run a region has one answer to each request, whatever number its seat has loaded.
pub fn one_answer()
    ensures { (bounds : List Key) (events : History) (n loaded : ℕ) (body : Body) (a b : Answer)
        → IsWorldRun bounds events → AnswersNext events n loaded body a → AnswersNext events n loaded body b → a ≡ b }
{}
