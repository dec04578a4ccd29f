//! Laws: what the lines of a session are told, by how they are played.
ghost use Rattle.std.specs.Prelude.{◌≡◌, ◌+◌, ◌++◌, ℕ, List, All, Some};
ghost use Rattle.tx_types.specs.declared.key.Key.{Key};
ghost use Rattle.tx_core.specs.Worlds.{IsWorldRun};
ghost use Rattle.tx_evidence.specs.Buffers.{AllBy};
ghost use Rattle.tx_workload.specs.declared.reply.LineReply.{LineReply};
ghost use Rattle.tx_workload.specs.Answers.{numbers_of};
ghost use Rattle.tx_workload.specs.Logs.{TellsBy};
ghost use Rattle.tx_workload.specs.Pairs.{TellsPair};
ghost use Rattle.tx_workload.specs.Readers.{HasSession};
ghost use Rattle.tx_workload.specs.Tells.{AreEntered, AreOf, EnteredBy, TellsLine, session_name};
ghost use Rattle.tx_run.specs.Played.{LinePlays, Plays, Standing, at, buffer_at, known_at};

/// A line of a session that is played is told what its seat then knows, or what lines of its
/// session before it entered; and so is each line of a session that is played from one to the
/// last. A session's buffer has what lines of its own entered.
pub fn lines_tell()
    ensures line { (bounds : List Key) (text : List ℕ) (job : ℕ) (from : Standing) (s : LineReply) (to : Standing)
        → LinePlays bounds (Some text) from s to → HasSession (Some text) s.number (session_name (Some text) job)
        → AllBy (EnteredBy (Some text) job s.number) (buffer_at (at from))
        → AllBy (EnteredBy (Some text) job (s.number + 1)) (buffer_at (at to))
        × TellsLine (Some text) bounds (known_at to).events s }
    ensures lines { (bounds : List Key) (text : List ℕ) (job : ℕ) (from last : Standing) (replies : List LineReply)
        → Plays bounds (Some text) from replies last → AreOf (Some text) job (numbers_of replies)
        → AreEntered (Some text) job (numbers_of replies) (buffer_at (at from))
        → All (TellsLine (Some text) bounds (known_at last).events) replies }
{}

/// An outcome that a line is told was recorded by the seat of its session, which drew its start,
/// with just the keys that its line says; and no two lines are told of one transaction.
pub fn outcomes_are_told()
    ensures told { (bounds : List Key) (text : List ℕ) (seat : ℕ) (from last : Standing) (replies : List LineReply)
        → Plays bounds (Some text) from replies last → (before : List LineReply)
        → IsWorldRun bounds (known_at from).events → (known_at from).seat ≡ seat
        → TellsBy (known_at from).events seat before → TellsBy (known_at last).events seat (before ++ replies) }
    ensures pairs { (bounds : List Key) (text : List ℕ) (from last : Standing) (replies : List LineReply)
        → Plays bounds (Some text) from replies last → All (TellsPair (Some text)) replies }
{}
