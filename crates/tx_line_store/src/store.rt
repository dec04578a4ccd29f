//! A store over maps from bytes, which has its allocator, and room for the text of a reply.
ghost use Rattle.std.specs.Prelude.{◌≡◌, ◌≤◌, ◌<◌, ◌⊎◌, ◌+◌, ℕ, List, [], ◌∷◌, ◌++◌, All, vec_len, length, IfOk, IfErr, IfSome, IsOk, OnOk, OnErr};
ghost use Rattle.serde_json.specs.Data.{Items};
ghost use Rattle.tx_types.specs.declared.limits.TheConstants as limits;
ghost use Rattle.tx_cells.specs.Contents.{nothing_held};
ghost use Rattle.tx_flat.specs.Flats.{flat_content};
ghost use Rattle.tx_reply.specs.Replies.{reply_words};
ghost use Rattle.tx_script.specs.Players.{HasPlayed, IsPlayer, EndWellWith};
ghost use Rattle.tx_line_store.specs.Lines.{said_text, laid_over, IsPlayed, IsKept};

use crate::lines::Lines;
use std::alloc::Global;
use std::marker::Model;
use tx_flat::FlatCells;
use tx_journal::{JournalId, Opened};
use tx_script::Broken;

/// A store that has played lines. Contracts see it as `Lines`.
#[derive(Drop)]
pub struct LineStore<J: JournalId> {
    alloc: Global,
    lines: Lines<J, FlatCells>,
    // The reply that was asked for last.
    text: Vec<u8>,
}

impl<J: JournalId> Model for LineStore<J> {
    ghost use Rattle.tx_line_store.specs.Lines.{LinesState};

    ghost Value = { LinesState };

    ghost view = { λ s. s.lines };
}

impl<J: JournalId> LineStore<J> {
    /// A store over a journal that was opened and has no other user, and over empty families, one
    /// for each region; it has played its first line. None where that line is a fault. `Memory`
    /// where a growth was refused.
    pub fn open(
        alloc: Global,
        opened: Opened,
        families: Vec<FlatCells>,
        first: &[u8],
    ) -> Result<Option<LineStore<J>>, Broken>
        requires named { (opened.table ≡ J.table) × (opened.bounds ≡ J.bounds) × (opened.seats ≡ J.seats) }
        requires few { vec_len families ≡ length opened.bounds + 1 }
        requires seats { opened.seats ≡ length opened.bounds + 2 + limits.MAX_LIVE_SESSIONS }
        requires empty { All (λ f. flat_content f ≡ (λ k. nothing_held)) families.items }
        ensures player { IfOk result (λ made. IfSome made (λ s. IsPlayer J.bounds s.player)) }
        ensures number { IfOk result (λ made. IfSome made (λ s. s.number ≡ 1)) }
        ensures plays { IfOk result (λ made. IfSome made (λ s. IfOk s.said (λ reply.
            HasPlayed J.bounds (first.now ∷ []) ((1, reply_words reply) ∷ []) s.player))) }
        ensures well { IfOk result (λ made. IfSome made (λ s. IsOk s.said)) }
        ensures err { IfErr result (λ why. why ≡ Broken.Memory) }
    {
        let lines = Lines::<J, FlatCells>::open(alloc, opened, families, 0, first)?;
        if lines.fault().is_some() {
            return Ok(None);
        }
        Ok(Some(LineStore {
            alloc,
            lines,
            text: Vec::new(alloc),
        }))
    }

    /// Plays a line, as `Lines::play` does.
    pub fn play(&mut self, line: &[u8]) -> Result<(), Broken>
        requires { IsPlayer J.bounds self.old.player }
        ensures player { IsPlayer J.bounds self.new.player }
        ensures played { OnOk result (IsPlayed J.bounds self.old line.now self.new) }
        ensures breaks { OnErr result (IsKept J.bounds self.old self.new) }
        ensures err { IfErr result (λ why. why ≡ Broken.Memory) }
    {
        self.lines.play(self.alloc, line)
    }

    /// The line that tells what was said of the last line: how many bytes it has. It is written to
    /// the first bytes of `out` where it fits there, and else nothing is. `Memory` where a growth
    /// was refused: nothing is written, and it may be asked for again.
    pub fn reply(&mut self, out: &mut [u8]) -> Result<usize, Broken>
        ensures same { self.new ≡ self.old }
        ensures length { IfOk result (λ len. len ≡ length (said_text self.old)) }
        ensures told { OnOk result (out.new ≡ laid_over (said_text self.old) out.old) }
        ensures broken { OnErr result (out.new ≡ out.old) }
        ensures err { IfErr result (λ why. why ≡ Broken.Memory) }
    {
        self.text.clear();
        self.lines.put_said(&mut self.text)?;
        let len = self.text.len();
        if len <= out.len() {
            out[..len].copy_from_slice(self.text.as_slice());
        }
        Ok(len)
    }

    /// The store is done with, as `Lines::end` says.
    pub fn end(self)
        requires player { IsPlayer J.bounds self.player }
        requires seats { J.seats ≡ length J.bounds + 2 + limits.MAX_LIVE_SESSIONS }
        ensures { (lines : List (List ℕ)) (done : List (ℕ × Items)) → HasPlayed J.bounds lines done self.player
            → EndWellWith J.bounds lines done }
    {
        let LineStore {
            alloc: _,
            lines,
            text: _,
        } = self;
        lines.end();
    }
}
