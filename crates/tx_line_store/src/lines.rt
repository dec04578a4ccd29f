//! Lines that are played one after another, and what is said of each.
ghost use Rattle.std.specs.Prelude.{◌≡◌, ◌≤◌, ◌<◌, ◌⊎◌, ◌+◌, ℕ, List, [], ◌∷◌, ◌++◌, All, vec_len, length, IfOk, IfErr, OnOk, OnErr, IsOk, IfSome, IfNone, Err};
ghost use Rattle.serde_json.specs.Data.{Items};
ghost use Rattle.tx_types.specs.declared.limits.TheConstants as limits;
ghost use Rattle.tx_cells.specs.Contents.{nothing_held};
ghost use Rattle.tx_reply.specs.Replies.{reply_words};
ghost use Rattle.tx_engine.specs.Slots.{engine_state};
ghost use Rattle.tx_evidence.specs.Lines.{bounds_of};
ghost use Rattle.tx_script.specs.Players.{HasPlayed, IsPlayer, EndWellWith};
ghost use Rattle.tx_script.specs.Stages.{line_stage};
ghost use Rattle.tx_line_store.specs.Lines.{LinesState, said_text, HasPlayedSame, WasReplied, WasFault, IsPlayed, IsKept};

use std::alloc::{AllocError, Global};
use std::marker::Model;
use std::mem;
use tx_cells::{Families, Fresh, Plain, make_families};
use tx_journal::{JournalId, Opened};
use tx_reply::{ScriptReply, put_reply};
use tx_script::{Broken, Player, SessionStage, bounds_in};
use tx_text::put_fault;
use tx_types::Cause;
use tx_types::limits::{MAX_LINES, MAX_LIVE_SESSIONS};

/// A journal over the regions that a first line says, or over one where it says none, and families
/// that hold nothing for each region. `Memory` where a growth was refused.
pub fn journal<F: Fresh>(alloc: Global, first: &[u8]) -> Result<(Opened, Vec<F>), Broken>
    ensures bounds { IfOk result (λ r. r.0.bounds ≡ bounds_of (first.now ∷ [])) }
    ensures few { IfOk result (λ r. vec_len r.1 ≡ length r.0.bounds + 1) }
    ensures seats { IfOk result (λ r. r.0.seats ≡ length r.0.bounds + 2 + limits.MAX_LIVE_SESSIONS) }
    ensures empty { IfOk result (λ r. All (λ f. F.content f ≡ (λ k. nothing_held)) r.1.items) }
    ensures err { IfErr result (λ why. why ≡ Broken.Memory) }
{
    let bounds = bounds_in(alloc, first)?;
    let Ok(families) = make_families::<F, _>(alloc, &Plain, bounds.len() + 1) else {
        return Err(Broken::Memory);
    };
    let Ok(opened) = Opened::new(alloc, bounds, MAX_LIVE_SESSIONS + 1) else {
        return Err(Broken::Memory);
    };
    Ok((opened, families))
}

// Numbers the next line as a script's second, where the last that a script may have was played.
fn number_on<J: JournalId, F: Families + Drop>(player: &mut Player<J, F>)
    requires player { IsPlayer J.bounds player.old }
    requires begun { 1 ≤ player.old.number }
    ensures player { IsPlayer J.bounds player.new }
    ensures engine { player.new.engine ≡ player.old.engine }
    ensures early { player.old.number < limits.MAX_LINES → player.new ≡ player.old }
{
    if player.number() >= MAX_LINES {
        player.number_anew();
    }
}

// Tries a line as the next of its script.
#[tactic(auto, using(crate::proofs::Played::replied))]
fn try_line<J: JournalId, F: Families + Drop>(
    alloc: Global,
    player: &mut Player<J, F>,
    line: &[u8],
) -> Result<Result<ScriptReply, Cause>, Broken>
    requires { IsPlayer J.bounds player.old }
    ensures player { IsPlayer J.bounds player.new }
    ensures replied { IfOk result (λ said. IfOk said (WasReplied J.bounds player.old line.now player.new)) }
    ensures fault { IfOk result (λ said. IfErr said (WasFault J.bounds player.old line.now player.new)) }
    ensures breaks { OnErr result (HasPlayedSame J.bounds player.old player.new) }
    ensures err { IfErr result (λ why. why ≡ Broken.Memory) }
{
    match player.play(alloc, line)? {
        Ok(reply) => {
            number_on(player);
            Ok(Ok(reply))
        }
        Err(cause) => Ok(Err(cause)),
    }
}

// What was said is not told any more.
fn forget(_said: Result<ScriptReply, Cause>) {}

/// A store that has played lines. Its view is its player, how many lines it was given, and what was
/// said of the last of them.
#[derive(Drop)]
pub struct Lines<J: JournalId, F: Families + Drop> {
    player: Player<J, F>,
    number: u64,
    said: Result<ScriptReply, Cause>,
}

impl<J: JournalId, F: Families + Drop> Model for Lines<J, F> {
    ghost use Rattle.tx_line_store.specs.Lines.{LinesState};

    ghost Value = { LinesState };

    ghost view = { λ s. record { player = s.player; number = s.number; said = s.said } };
}

impl<J: JournalId, F: Families + Drop> Lines<J, F> {
    /// A store over a journal that was opened and has no other user, and over empty families, one
    /// for each region. It plays its first line, which so many came before that were faults.
    /// `Memory` where a growth was refused.
    pub fn open(
        alloc: Global,
        opened: Opened,
        families: Vec<F>,
        before: u64,
        first: &[u8],
    ) -> Result<Lines<J, F>, Broken>
        requires named { (opened.table ≡ J.table) × (opened.bounds ≡ J.bounds) × (opened.seats ≡ J.seats) }
        requires few { vec_len families ≡ length opened.bounds + 1 }
        requires seats { opened.seats ≡ length opened.bounds + 2 + limits.MAX_LIVE_SESSIONS }
        requires empty { All (λ f. F.content f ≡ (λ k. nothing_held)) families.items }
        ensures player { IfOk result (λ s. IsPlayer J.bounds s.player) }
        ensures number { IfOk result (λ s. before + 1 < 18446744073709551616 → s.number ≡ before + 1) }
        // What it has played is the first line, with the reply that is said.
        ensures plays { IfOk result (λ s. IfOk s.said (λ reply.
            HasPlayed J.bounds (first.now ∷ []) ((1, reply_words reply) ∷ []) s.player)) }
        ensures err { IfErr result (λ why. why ≡ Broken.Memory) }
    {
        let mut player = Player::<J, F>::new(alloc, opened, families)?;
        let said = player.play(alloc, first)?;
        Ok(Lines {
            player,
            number: before.saturating_add(1),
            said,
        })
    }

    /// Plays a line, without its newline: what is said of it is its reply, or why it is a fault,
    /// after which the store holds what it held. It is a fault for `Lines` also where 4,294,967,295
    /// were tried. `Memory` where a growth was refused outside of a step's own calls: nothing was
    /// played.
    pub fn play(&mut self, alloc: Global, line: &[u8]) -> Result<(), Broken>
        requires { IsPlayer J.bounds self.old.player }
        ensures player { IsPlayer J.bounds self.new.player }
        ensures played { OnOk result (IsPlayed J.bounds self.old line.now self.new) }
        ensures breaks { OnErr result (IsKept J.bounds self.old self.new) }
        ensures err { IfErr result (λ why. why ≡ Broken.Memory) }
    {
        let said = try_line(alloc, &mut self.player, line)?;
        forget(mem::replace(&mut self.said, said));
        self.number = self.number.saturating_add(1);
        Ok(())
    }

    /// How many lines it was given.
    pub fn number(&self) -> u64
        ensures { result ≡ self.now.number }
    {
        self.number
    }

    /// Why the last line was a fault, where it was one.
    pub fn fault(&self) -> Option<Cause>
        ensures some { IfSome result (λ cause. self.now.said ≡ Err cause) }
        ensures none { IfNone result (IsOk self.now.said) }
    {
        match &self.said {
            Ok(_) => None,
            Err(cause) => Some(*cause),
        }
    }

    /// How far the session is of the step that a line says, were it the next: where that step is a
    /// draw, a commit or an abort, and the session is live. `Memory` where a growth was refused.
    pub fn stage_at(&self, alloc: Global, line: &[u8]) -> Result<Option<SessionStage>, Broken>
        requires { IsPlayer J.bounds self.now.player }
        ensures ok { IfOk result (λ stage. stage
            ≡ line_stage (engine_state self.now.player.engine) (self.now.player.number + 1) line.now) }
        ensures err { IfErr result (λ why. why ≡ Broken.Memory) }
    {
        self.player.stage_at(alloc, line)
    }

    /// Appends the line that tells what was said of the last line, with its number.
    pub fn put_said(&self, text: &mut Vec<u8>) -> Result<(), AllocError>
        ensures { OnOk result (text.new.items ≡ text.old.items ++ said_text self.now) }
    {
        match &self.said {
            Ok(reply) => put_reply(text, self.number, reply),
            Err(cause) => put_fault(text, self.number, *cause),
        }
    }

    /// The store is done with: nobody else has acted, so what it has played is a script that ends
    /// well.
    pub fn end(self)
        requires player { IsPlayer J.bounds self.player }
        requires seats { J.seats ≡ length J.bounds + 2 + limits.MAX_LIVE_SESSIONS }
        ensures { (lines : List (List ℕ)) (done : List (ℕ × Items)) → HasPlayed J.bounds lines done self.player
            → EndWellWith J.bounds lines done }
    {
        let Lines {
            player,
            number: _,
            said: _,
        } = self;
        player.end();
    }
}
