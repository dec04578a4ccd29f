//! A player: lines are tried one after another, and one that is a fault leaves it as it was.
ghost use Rattle.std.specs.Prelude.{◌≡◌, ◌+◌, ◌≤◌, ◌⊎◌, ℕ, List, [], ◌∷◌, ◌++◌, All, vec_len, length, option_map, IfOk, IfErr, OnErr};
ghost use Rattle.serde_json.specs.Data.{Items};
ghost use Rattle.tx_types.specs.declared.limits.TheConstants as limits;
ghost use Rattle.tx_cells.specs.Contents.{nothing_held};
ghost use Rattle.tx_reply.specs.Replies.{reply_words};
ghost use Rattle.tx_cells.specs.Copies.{Copies};
ghost use Rattle.tx_core.specs.Histories.{left};
ghost use Rattle.tx_core.specs.Worlds.{IsWorldRun, route};
ghost use Rattle.tx_trace.specs.Traces.{Noted};
ghost use Rattle.tx_network.specs.Networks.{IsTraced, takings_in};
ghost use Rattle.tx_engine.specs.Semantics.{opening};
ghost use Rattle.tx_engine.specs.Slots.{engine_state, own};
ghost use Rattle.tx_script.specs.Players.{PlayerState, HasPlayed, IsPlayer, IsFault, IsReplied, EndWellWith, Traced, Peeked};
ghost use Rattle.tx_script.specs.Stages.{line_stage};

use crate::line::play_line;
use crate::script::close;
use crate::simulation::engine_over;
use crate::stage::line_stage;
use std::alloc::Global;
use std::marker::Model;
use tx_cells::{Families, ShownKey};
use tx_core::Body;
use tx_engine::Engine;
use tx_journal::{JournalId, Opened};
use tx_ops::SessionStage;
use tx_reply::ScriptReply;
use tx_text::Broken;
use tx_trace::{Taking, Trace};
use tx_types::{Cause, Fault, Key};

/// How many lines a player may try: its seats have numbers for no more.
const MAX_TRIES: u64 = 4_294_967_295;

/// Plays a script line by line, as `simulate` does, for who has the next line only when the reply
/// to the last one is known. Its view is its engine, how many lines it has played, and how many
/// more it may try.
pub struct Player<J: JournalId, F: Families> {
    engine: Engine<J, F>,
    number: u64,
    left: u64,
}

impl<J: JournalId, F: Families> Model for Player<J, F> {
    ghost use Rattle.tx_script.specs.Players.{PlayerState};

    ghost Value = { PlayerState };

    ghost view = { λ p. record { engine = p.engine; number = p.number; left = p.left } };
}

impl<J: JournalId, F: Families + Drop> Drop for Player<J, F> {
    fn drop(self) {
        let Player {
            engine: _,
            number: _,
            left: _,
        } = self;
    }
}

impl<J: JournalId, F: Families + Drop> Player<J, F> {
    /// A player over a journal that was opened and has no other user, and over empty families, one
    /// for each region: it has played no line. `Memory` where a growth was refused.
    pub fn new(alloc: Global, opened: Opened, families: Vec<F>) -> Result<Player<J, F>, Broken>
        requires named { (opened.table ≡ J.table) × (opened.bounds ≡ J.bounds) × (opened.seats ≡ J.seats) }
        requires few { vec_len families ≡ length opened.bounds + 1 }
        requires seats { opened.seats ≡ length opened.bounds + 2 + limits.MAX_LIVE_SESSIONS }
        requires empty { All (λ f. F.content f ≡ (λ k. nothing_held)) families.items }
        ensures played { IfOk result (λ p. HasPlayed J.bounds [] [] p) }
        ensures player { IfOk result (λ p. IsPlayer J.bounds p) }
        ensures none { IfOk result (λ p. p.number ≡ 0) }
        ensures err { IfErr result (λ why. why ≡ Broken.Memory) }
    {
        let engine = engine_over::<J, F>(alloc, opened, families)?;
        Ok(Player {
            engine,
            number: 0,
            left: MAX_TRIES,
        })
    }

    /// Such a player that keeps the machine's steps and what regions take, for a film of what it
    /// plays.
    pub fn filmed(alloc: Global, opened: Opened, families: Vec<F>) -> Result<Player<J, F>, Broken>
        requires named { (opened.table ≡ J.table) × (opened.bounds ≡ J.bounds) × (opened.seats ≡ J.seats) }
        requires few { vec_len families ≡ length opened.bounds + 1 }
        requires seats { opened.seats ≡ length opened.bounds + 2 + limits.MAX_LIVE_SESSIONS }
        requires empty { All (λ f. F.content f ≡ (λ k. nothing_held)) families.items }
        ensures played { IfOk result (λ p. HasPlayed J.bounds [] [] p) }
        ensures player { IfOk result (λ p. IsPlayer J.bounds p) }
        ensures traced { IfOk result (λ p. IsTraced p.engine.network) }
        ensures begins { IfOk result (λ p. engine_state p.engine ≡ opening limits.MAX_LIVE_SESSIONS) }
        ensures tries { IfOk result (λ p. p.left ≡ 4294967295) }
        ensures seats { IfOk result (λ _. J.seats ≡ length J.bounds + 2 + limits.MAX_LIVE_SESSIONS) }
        ensures none { IfOk result (λ p. p.number ≡ 0) }
        ensures err { IfErr result (λ why. why ≡ Broken.Memory) }
    {
        let mut engine = engine_over::<J, F>(alloc, opened, families)?;
        engine.keep_takings();
        Ok(Player {
            engine,
            number: 0,
            left: MAX_TRIES,
        })
    }

    /// How many lines it has played.
    pub fn number(&self) -> u64
        ensures { result ≡ self.now.number }
    {
        self.number
    }

    /// How far the session is of the step that a line says, were it the next: where that step is a
    /// draw, a commit or an abort, and the session is live. `Memory` where a growth was refused.
    pub fn stage_at(&self, alloc: Global, line: &[u8]) -> Result<Option<SessionStage>, Broken>
        requires { IsPlayer J.bounds self.now }
        ensures ok { IfOk result (λ stage. stage
            ≡ line_stage (engine_state self.now.engine) (self.now.number + 1) line.now) }
        ensures err { IfErr result (λ why. why ≡ Broken.Memory) }
    {
        line_stage(alloc, &self.engine, self.number + 1, line)
    }

    /// Tries a line, without its newline, as the next of its script: its reply, or the cause why it
    /// is a fault, after which the player has played what it had before. `Lines` also where it has
    /// tried 4,294,967,295. `Memory` where a growth was refused outside of a step's own calls.
    pub fn play(&mut self, alloc: Global, line: &[u8]) -> Result<Result<ScriptReply, Cause>, Broken>
        requires { IsPlayer J.bounds self.old }
        ensures player { IsPlayer J.bounds self.new }
        // It has played one line more, with this reply.
        ensures plays { IfOk result (λ said. IfOk said (λ reply. (lines : List (List ℕ)) (done : List (ℕ × Items))
            → HasPlayed J.bounds lines done self.old → HasPlayed J.bounds (lines ++ line.now ∷ [])
            (done ++ (self.new.number, reply_words reply) ∷ []) self.new)) }
        ensures counts { IfOk result (λ said. IfOk said (λ _. self.new.number ≡ self.old.number + 1)) }
        ensures tries { IfOk result (λ said. IfOk said (λ _. self.old.left ≡ self.new.left + 1)) }
        // Where nobody else acted, the reply is what the line leads to where the player stands.
        ensures replies { IfOk result (λ said. IfOk said (λ reply.
            length self.new.engine.network.newest ≤ own self.new.engine
            → IsReplied J.bounds self.old line.now reply self.new)) }
        // Where nobody else acted, it is a fault for this cause; or too many were tried.
        ensures faults { IfOk result (λ said. IfErr said (λ cause. ((cause ≡ Cause.Lines) × (self.old.left ≡ 0))
            ⊎ (length self.new.engine.network.newest ≤ own self.new.engine
            → IsFault J.bounds self.old line.now cause))) }
        // A fault: the engine state is as it was.
        ensures as_before { IfOk result (λ said. OnErr said ((self.new.number ≡ self.old.number)
            × (length self.new.engine.network.newest ≤ own self.new.engine
            → engine_state self.new.engine ≡ engine_state self.old.engine))) }
        // A fault, or want of memory: it has played the same.
        ensures stays { IfOk result (λ said. OnErr said ((lines : List (List ℕ)) (done : List (ℕ × Items))
            → HasPlayed J.bounds lines done self.old → HasPlayed J.bounds lines done self.new)) }
        ensures breaks { OnErr result ((lines : List (List ℕ)) (done : List (ℕ × Items))
            → HasPlayed J.bounds lines done self.old → HasPlayed J.bounds lines done self.new) }
        ensures same { OnErr result (self.new.number ≡ self.old.number) }
        // Where nobody else acted, a trace that was that of what had happened is it still.
        ensures traced { Traced J.bounds self.old self.new }
        ensures err { IfErr result (λ why. why ≡ Broken.Memory) }
    {
        if self.left == 0 {
            return Ok(Err(Cause::Lines));
        }
        self.left -= 1;
        match play_line(alloc, &mut self.engine, self.number + 1, line)? {
            Ok(reply) => {
                self.number += 1;
                Ok(Ok(reply))
            }
            Err(cause) => Ok(Err(cause)),
        }
    }

    /// What the region of a key keeps of it, where the player stands. No event is made, and it has
    /// played the same. Memory for that may be refused.
    pub fn show_key(&mut self, key: &Key) -> Result<ShownKey, Fault>
        requires { IsPlayer J.bounds self.old }
        ensures player { IsPlayer J.bounds self.new }
        ensures played { (lines : List (List ℕ)) (done : List (ℕ × Items)) → HasPlayed J.bounds lines done self.old
            → HasPlayed J.bounds lines done self.new }
        ensures same { Peeked J.bounds self.old self.new }
        ensures shows { IfOk result (λ copy. Copies ((left self.new.engine.network.newest
            (route J.bounds key.now)).cells key.now) copy) }
    {
        self.engine.show_key(key)
    }

    /// How many steps of the machine are kept so far: none where memory for one was refused.
    pub fn count_steps(&self) -> Option<usize>
        ensures { result ≡ option_map (λ (t : Noted). length t.steps) self.now.engine.network.trace }
    {
        self.engine.count_steps()
    }

    /// What regions took so far, oldest first: none where that is not kept, or no more.
    pub fn takings(&self) -> Option<&[Taking]>
        ensures { option_map (λ ts. ts.now) result ≡ takings_in self.now.engine.network.trace }
    {
        self.engine.takings()
    }

    /// What the request asks that is held under a name, where one is.
    pub fn held_body(&self, name: &str) -> Option<&Body>
        ensures { option_map (λ body. body.now) result ≡ (engine_state self.now.engine).network.held name.now }
    {
        self.engine.held_body(name)
    }

    /// Numbers the next line as a script's second, and so goes on behind the last line that a
    /// script may have. It holds what it held.
    pub fn number_anew(&mut self)
        requires player { IsPlayer J.bounds self.old }
        requires begun { 1 ≤ self.old.number }
        ensures player { IsPlayer J.bounds self.new }
        ensures number { self.new.number ≡ 1 }
        ensures same { (self.new.engine ≡ self.old.engine) × (self.new.left ≡ self.old.left) }
    {
        self.number = 1;
    }

    /// The player is done with: nobody else has acted, so what it has played is a script that ends
    /// well.
    pub fn end(self)
        requires player { IsPlayer J.bounds self }
        requires seats { J.seats ≡ length J.bounds + 2 + limits.MAX_LIVE_SESSIONS }
        ensures { (lines : List (List ℕ)) (done : List (ℕ × Items)) → HasPlayed J.bounds lines done self
            → EndWellWith J.bounds lines done }
    {
        let Player {
            engine,
            number: _,
            left: _,
        } = self;
        drop(close(engine));
    }
    /// The same, with the machine's steps and what regions took, where those were kept: all of what
    /// happened. Nobody else has acted.
    pub fn end_film(self) -> Option<Trace>
        requires player { IsPlayer J.bounds self }
        requires seats { J.seats ≡ length J.bounds + 2 + limits.MAX_LIVE_SESSIONS }
        ensures ends { (lines : List (List ℕ)) (done : List (ℕ × Items)) → HasPlayed J.bounds lines done self
            → EndWellWith J.bounds lines done }
        ensures came { length self.engine.network.newest ≤ own self.engine }
        ensures run { IsWorldRun J.bounds self.engine.network.newest }
        ensures trace { result ≡ self.engine.network.trace }
    {
        let Player {
            engine,
            number: _,
            left: _,
        } = self;
        close(engine)
    }
}
