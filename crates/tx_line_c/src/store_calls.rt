//! What each call does with the store that it was handed.
ghost use Rattle.std.specs.Prelude.{◌≡◌, ◌+◌, ◌⊎◌, ℕ, List, [], ◌∷◌, All, vec_len, length, true, false, IfSome, IfOk, IfErr, IsOk};
ghost use Rattle.std_alloc.specs.Box.{box_allocator};
ghost use Rattle.serde_json.specs.Data.{Items};
ghost use Rattle.tx_types.specs.declared.limits.TheConstants as limits;
ghost use Rattle.tx_cells.specs.Contents.{nothing_held};
ghost use Rattle.tx_flat.specs.Flats.{flat_content};
ghost use Rattle.tx_evidence.specs.Lines.{bounds_of};
ghost use Rattle.tx_reply.specs.Replies.{reply_words};
ghost use Rattle.tx_script.specs.Players.{HasPlayed, IsPlayer, EndWellWith};
ghost use Rattle.tx_line_store.specs.Lines.{said_text, laid_over, IsPlayed, IsKept};

use std::alloc::Global;
use tx_flat::FlatCells;
use tx_journal::{JournalId, Opened};
use tx_line_store::{LineStore, journal};

/// Memory was refused: there is no store.
pub(crate) const REFUSED: u32 = 0;

/// The store is open.
pub(crate) const OPEN: u32 = 1;

/// The first line is a fault: there is no store.
pub(crate) const FAULT: u32 = 2;

/// What a store is made of: a journal that was opened for it, and a family for each region.
#[derive(Drop)]
pub(crate) struct Parts {
    opened: Opened,
    families: Vec<FlatCells>,
}

/// What a store is made of by its first line, which may say the regions. None where memory was
/// refused.
pub(crate) fn found(alloc: Global, first: &[u8]) -> Option<Parts>
    ensures bounds { IfSome result (λ p. p.opened.bounds ≡ bounds_of (first.now ∷ [])) }
    ensures few { IfSome result (λ p. vec_len p.families ≡ length p.opened.bounds + 1) }
    ensures seats { IfSome result (λ p. p.opened.seats ≡ length p.opened.bounds + 2 + limits.MAX_LIVE_SESSIONS) }
    ensures empty { IfSome result (λ p. All (λ f. flat_content f ≡ (λ k. nothing_held)) p.families.items) }
{
    let Ok((opened, families)) = journal::<FlatCells>(alloc, first) else {
        return None;
    };
    Some(Parts { opened, families })
}

/// A store in a block of its own, which has played its first line, or why there is none.
pub(crate) fn made<J: JournalId>(
    alloc: Global,
    parts: Option<Parts>,
    first: &[u8],
) -> Result<Box<LineStore<J>>, u32>
    requires named { IfSome parts (λ p. (p.opened.table ≡ J.table) × (p.opened.bounds ≡ J.bounds)
        × (p.opened.seats ≡ J.seats)) }
    requires bounds { IfSome parts (λ p. p.opened.bounds ≡ bounds_of (first.now ∷ [])) }
    requires few { IfSome parts (λ p. vec_len p.families ≡ length p.opened.bounds + 1) }
    requires seats { IfSome parts (λ p. p.opened.seats ≡ length p.opened.bounds + 2 + limits.MAX_LIVE_SESSIONS) }
    requires empty { IfSome parts (λ p. All (λ f. flat_content f ≡ (λ k. nothing_held)) p.families.items) }
    ensures alloc { IfOk result (λ b. box_allocator b ≡ alloc) }
    ensures player { IfOk result (λ b. IsPlayer J.bounds b.value.player) }
    ensures seats { IfOk result (λ _. J.seats ≡ length J.bounds + 2 + limits.MAX_LIVE_SESSIONS) }
    ensures bounds { IfOk result (λ _. J.bounds ≡ bounds_of (first.now ∷ [])) }
    ensures number { IfOk result (λ b. b.value.number ≡ 1) }
    ensures well { IfOk result (λ b. IsOk b.value.said) }
    ensures plays { IfOk result (λ b. IfOk b.value.said (λ reply.
        HasPlayed J.bounds (first.now ∷ []) ((1, reply_words reply) ∷ []) b.value.player)) }
    ensures code { IfErr result (λ code. (code ≡ 0) ⊎ (code ≡ 2)) }
{
    let Some(Parts { opened, families }) = parts else {
        return Err(REFUSED);
    };
    let Ok(made) = LineStore::<J>::open(alloc, opened, families, first) else {
        return Err(REFUSED);
    };
    let Some(store) = made else {
        return Err(FAULT);
    };
    let Ok(store) = Box::new(alloc, store) else {
        return Err(REFUSED);
    };
    Ok(store)
}

/// Plays a line: whether memory was there for it.
pub(crate) fn play<J: JournalId>(store: &mut LineStore<J>, line: &[u8]) -> bool
    requires { IsPlayer J.bounds store.old.player }
    ensures player { IsPlayer J.bounds store.new.player }
    ensures played { result ≡ true → IsPlayed J.bounds store.old line.now store.new }
    ensures kept { result ≡ false → IsKept J.bounds store.old store.new }
{
    store.play(line).is_ok()
}

/// Writes the reply to the last line, where it fits: how many bytes it has, which is 0 where memory
/// was refused.
pub(crate) fn reply<J: JournalId>(store: &mut LineStore<J>, out: &mut [u8]) -> u64
    ensures same { store.new ≡ store.old }
    ensures told { ((result ≡ length (said_text store.old)) × (out.new ≡ laid_over (said_text store.old) out.old))
        ⊎ ((result ≡ 0) × (out.new ≡ out.old)) }
{
    match store.reply(out) {
        Ok(len) => len as u64,
        Err(_) => 0,
    }
}

/// Ends a store.
pub(crate) fn end<J: JournalId>(store: Box<LineStore<J>>)
    requires player { IsPlayer J.bounds store.value.player }
    requires seats { J.seats ≡ length J.bounds + 2 + limits.MAX_LIVE_SESSIONS }
    ensures { (lines : List (List ℕ)) (done : List (ℕ × Items)) → HasPlayed J.bounds lines done store.value.player
        → EndWellWith J.bounds lines done }
{
    let store = Box::into_inner(store);
    store.end();
}
