//! Laws: what the clauses of a run say, by how it was played.
ghost use Rattle.std.specs.Prelude.{◌≡◌, ℕ, List, All, Option, Some};
ghost use Rattle.tx_types.specs.declared.key.Key.{Key};
ghost use Rattle.tx_core.specs.Histories.{History, Begins};
ghost use Rattle.tx_core.specs.Worlds.{IsWorldRun};
ghost use Rattle.tx_evidence.specs.Lines.{bounds_of};
ghost use Rattle.tx_ops.specs.declared.stage.SessionStage.{SessionStage};
ghost use Rattle.tx_text.specs.Lines.{lines_of};
ghost use Rattle.tx_transfer.specs.Totals.{IsTotal};
ghost use Rattle.tx_workload.specs.declared.reply.LineReply.{LineReply};
ghost use Rattle.tx_workload.specs.Outcomes.{TellsOutcomes};
ghost use Rattle.tx_workload.specs.Pairs.{TellsPair};
ghost use Rattle.tx_workload.specs.Tells.{AllTell, TellsLine};
ghost use Rattle.tx_workload.specs.Totals.{TellsTotal, seen_in};
ghost use Rattle.tx_run.specs.Jobs.{ComesOfText};
ghost use Rattle.tx_run.specs.Sums.{SumsBehind};
ghost use Rattle.tx_run_laws.specs.Runs.{RunPlays};

/// A run of which `run_script` says what it came to was played, by its text, where line 1 is told
/// what it says: of that line only this clause says what it is told.
pub fn runs_are_played()
    ensures { (text : List ℕ) (bounds : List Key) (h : History) (replies : List LineReply)
        (stages : List (ℕ × SessionStage)) → ComesOfText (Some text) bounds h replies stages
        → bounds ≡ bounds_of (lines_of text)
        → All (λ s. s.number ≡ 1 → TellsLine (Some text) bounds h s) replies
        → RunPlays text bounds h replies stages }
{}

/// Of a run that was played each line is told what has happened, or what a line of its name before
/// it entered; each outcome that is told was answered, of a transaction of its own, with just the
/// keys that its line says; and it comes of its text.
pub fn played_runs_tell()
    ensures tells { (text : List ℕ) (bounds : List Key) (h : History) (replies : List LineReply)
        (stages : List (ℕ × SessionStage)) → RunPlays text bounds h replies stages
        → AllTell (Some text) (seen_in bounds h) replies }
    ensures pairs { (text : List ℕ) (bounds : List Key) (h : History) (replies : List LineReply)
        (stages : List (ℕ × SessionStage)) → RunPlays text bounds h replies stages
        → All (TellsPair (Some text)) replies }
    ensures told { (text : List ℕ) (bounds : List Key) (h : History) (replies : List LineReply)
        (stages : List (ℕ × SessionStage)) → RunPlays text bounds h replies stages → IsWorldRun bounds h
        → TellsOutcomes h replies }
    ensures comes { (text : List ℕ) (bounds : List Key) (h : History) (replies : List LineReply)
        (stages : List (ℕ × SessionStage)) → IsWorldRun bounds h → RunPlays text bounds h replies stages
        → ComesOfText (Some text) bounds h replies stages }
{}

/// A total that was read behind what each session knew at last was read behind all that the lines
/// are told. One that was is the sum at a timestamp at or above each commit that a line is told,
/// and the outcomes and replies behind which it was read are so in the end too.
pub fn sums_come_last()
    ensures played { (text : List ℕ) (bounds : List Key) (h : History) (replies : List LineReply)
        (stages : List (ℕ × SessionStage)) (before : History) (total : ℕ) → IsWorldRun bounds h → Begins before h
        → RunPlays text bounds before replies stages → IsTotal bounds before h total
        → SumsBehind (Some text) (seen_in bounds h) replies total
        × TellsTotal (seen_in bounds h) replies total }
    ensures told { (source : Option (List ℕ)) (bounds : List Key) (h : History) (replies : List LineReply) (total : ℕ)
        → IsWorldRun bounds h → SumsBehind source (seen_in bounds h) replies total
        → TellsTotal (seen_in bounds h) replies total × TellsOutcomes h replies
        × All (TellsLine source bounds h) replies }
{}
