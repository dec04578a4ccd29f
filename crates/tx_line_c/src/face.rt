//! The four functions. A slice crosses as a pointer and a length, an allocator as nothing.
ghost use Rattle.std.specs.Prelude.{◌≡◌, ◌⊎◌, ℕ, List, true, false, length, Option, IfSome, IfNone};
ghost use types.Logic.{sem};
ghost use Rattle.serde_json.specs.Data.{Items};
ghost use Rattle.tx_script.specs.Players.{HasPlayed, EndWellWith};
ghost use Rattle.tx_line_store.specs.Lines.{said_text, laid_over, IsPlayed, IsKept};
ghost use Rattle.tx_line_c.specs.Handles.{owns_store, owns_made, Held, IsHeld, HasBegun};

use crate::store_calls::{OPEN, end, found, made, play, reply};
use std::alloc::Global;
use std::marker::Brand;
use tx_line_store::LineStore;

/// Opens a store by its first line, which may say the regions, and writes its address to `at`: 1.
/// 0 where memory was refused, 2 where that line is a fault, and then nothing is written.
#[unsafe(no_mangle)]
pub extern "C" fn txkv_lines_open(alloc: Global, first: &[u8], at: &mut *mut u8) -> u32
    ensures kept { (result ≡ 1) ⊎ (at.new ≡ at.old) }
    ensures* opened { ∃ₛ (λ (made : Option Held). sem 𝓛 (owns_made alloc at.new made)
        ∗ ⌜ IfSome made (λ h. (result ≡ 1) × IsHeld h × HasBegun first.now h)
        × IfNone made ((result ≡ 0) ⊎ (result ≡ 2)) ⌝) }
{
    match made::<Brand>(alloc, found(alloc, first), first) {
        Ok(store) => {
            *at = Box::into_raw(store) as *mut u8;
            OPEN
        }
        Err(code) => code,
    }
}

/// Plays a line, without its newline: true. False where memory was refused before it was played,
/// and then all is as it was.
#[unsafe(no_mangle)]
pub unsafe extern "C" fn txkv_lines_play(alloc: Global, at: *mut u8, line: &[u8]) -> bool
    ghost g: { Held }
    requires* owns { sem 𝓛 (owns_store alloc at g) }
    requires held { IsHeld g }
    ensures* { ∃ₛ (λ (h : Held). sem 𝓛 (owns_store alloc at h) ∗ ⌜ (h.name ≡ g.name) × IsHeld h
        × (result ≡ true → IsPlayed g.name.bounds g.state line.now h.state)
        × (result ≡ false → IsKept g.name.bounds g.state h.state) ⌝) }
{
    play::<Brand>(&mut *(at as *mut LineStore<Brand>), line)
}

/// How many bytes the reply to the last line has, with its newline. It is written to the first
/// bytes of `out` where it fits there, and else nothing is. 0 where memory was refused, and it may
/// be asked for again.
#[unsafe(no_mangle)]
pub unsafe extern "C" fn txkv_lines_reply(alloc: Global, at: *mut u8, out: &mut [u8]) -> u64
    ghost g: { Held }
    requires* owns { sem 𝓛 (owns_store alloc at g) }
    ensures* { sem 𝓛 (owns_store alloc at g) ∗ ⌜
        ((result ≡ length (said_text g.state)) × (out.new ≡ laid_over (said_text g.state) out.old))
        ⊎ ((result ≡ 0) × (out.new ≡ out.old)) ⌝ }
{
    reply::<Brand>(&mut *(at as *mut LineStore<Brand>), out)
}

/// Closes a store: what it has played is a script that ends well.
#[unsafe(no_mangle)]
pub unsafe extern "C" fn txkv_lines_close(alloc: Global, at: *mut u8)
    ghost g: { Held }
    requires* owns { sem 𝓛 (owns_store alloc at g) }
    requires held { IsHeld g }
    ensures { (lines : List (List ℕ)) (done : List (ℕ × Items)) → HasPlayed g.name.bounds lines done g.state.player
        → EndWellWith g.name.bounds lines done }
{
    end::<Brand>(Box::from_raw(alloc, at as *mut LineStore<Brand>));
}
