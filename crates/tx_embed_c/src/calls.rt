//! What each call does with the store that it was handed.
ghost use Rattle.std.specs.Prelude.{◌≡◌, ◌≤◌, ◌⊎◌, [], length, IfSome, IfOk, IfErr};
ghost use Rattle.std_alloc.specs.Box.{box_allocator};
ghost use Rattle.tx_cells.specs.Contents.{nothing_held};
ghost use Rattle.tx_flat.specs.Flats.{flat_content};
ghost use Rattle.tx_embed.specs.Answers.{code_of, said_bytes, laid_over};
ghost use Rattle.tx_embed.specs.Calls.{Called, IsNew};

use std::alloc::Global;
use tx_embed::{EmbeddedStore, journal};
use tx_flat::FlatCells;
use tx_journal::{JournalId, Opened};

/// Memory was refused, or there are too many clients: there is no store.
pub(crate) const REFUSED: u32 = 0;

/// The store is open.
pub(crate) const OPEN: u32 = 1;

/// The options are none: there is no store.
pub(crate) const FAULT: u32 = 2;

/// What a store is made of: a journal that was opened for it, and a family.
#[derive(Drop)]
pub(crate) struct Parts {
    opened: Opened,
    family: FlatCells,
}

// How many clients the options say: two bytes, the lesser first.
fn clients_in(options: &[u8]) -> Option<usize> {
    match options {
        [low, high] => Some(usize::from(*low) + 256 * usize::from(*high)),
        _ => None,
    }
}

/// What a store is made of by its options. None where they are none, or memory was refused.
pub(crate) fn found(alloc: Global, options: &[u8]) -> Option<Parts>
    ensures bounds { IfSome result (λ p. p.opened.bounds ≡ []) }
    ensures seats { IfSome result (λ p. 2 ≤ p.opened.seats) }
    ensures empty { IfSome result (λ p. flat_content p.family ≡ (λ k. nothing_held)) }
{
    let clients = clients_in(options)?;
    let Ok((opened, family)) = journal(alloc, clients) else {
        return None;
    };
    Some(Parts { opened, family })
}

/// A store in a block of its own, or why there is none.
pub(crate) fn made<J: JournalId>(
    alloc: Global,
    parts: Option<Parts>,
) -> Result<Box<EmbeddedStore<J>>, u32>
    requires named { IfSome parts (λ p. (p.opened.table ≡ J.table) × (p.opened.bounds ≡ J.bounds)
        × (p.opened.seats ≡ J.seats)) }
    requires bounds { IfSome parts (λ p. p.opened.bounds ≡ []) }
    requires seats { IfSome parts (λ p. 2 ≤ p.opened.seats) }
    requires empty { IfSome parts (λ p. flat_content p.family ≡ (λ k. nothing_held)) }
    ensures alloc { IfOk result (λ b. box_allocator b ≡ alloc) }
    ensures new { IfOk result (λ b. IsNew b.value) }
    ensures code { IfErr result (λ code. (code ≡ 0) ⊎ (code ≡ 2)) }
{
    let Some(Parts { opened, family }) = parts else {
        return Err(FAULT);
    };
    let Ok(store) = EmbeddedStore::<J>::open(alloc, opened, family) else {
        return Err(REFUSED);
    };
    let Ok(store) = Box::new(alloc, store) else {
        return Err(REFUSED);
    };
    Ok(store)
}

/// Does what a request asks: the code of what is said of it.
pub(crate) fn call<J: JournalId>(store: &mut EmbeddedStore<J>, request: &[u8]) -> u32
    ensures called { Called J.bounds request.now store.old store.new }
    ensures code { result ≡ code_of store.new.said }
{
    u32::from(store.call(request))
}

/// Writes the bytes of what was said last, where they fit: how many they are; 2^64 - 1 where memory
/// was refused.
pub(crate) fn answer<J: JournalId>(store: &mut EmbeddedStore<J>, out: &mut [u8]) -> u64
    ensures same { store.new ≡ store.old }
    ensures told { ((result ≡ length (said_bytes store.old.said))
        × (out.new ≡ laid_over (said_bytes store.old.said) out.old))
        ⊎ ((result ≡ 18446744073709551615) × (out.new ≡ out.old)) }
{
    match store.answer(out) {
        Ok(len) => len as u64,
        Err(_) => u64::MAX,
    }
}

/// Ends a store.
pub(crate) fn end<J: JournalId>(store: Box<EmbeddedStore<J>>) {
    drop(store);
}
