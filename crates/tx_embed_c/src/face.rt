//! The four functions. A slice crosses as a pointer and a length, an allocator as nothing.
ghost use Rattle.std.specs.Prelude.{◌≡◌, ◌⊎◌, length, Option, IfSome, IfNone};
ghost use types.Logic.{sem};
ghost use Rattle.tx_embed.specs.Answers.{code_of, said_bytes, laid_over};
ghost use Rattle.tx_embed.specs.Calls.{Called, IsNew};
ghost use Rattle.tx_embed_c.specs.Handles.{owns_store, owns_made, Held};

use crate::calls::{OPEN, answer, call, end, found, made};
use std::alloc::Global;
use std::marker::Brand;
use tx_embed::EmbeddedStore;

/// Opens a store for as many clients as the two bytes of the options say, the lesser first, at most
/// 1,022, and writes its address to `at`: 1. Else nothing is written: 0 where memory was refused, 2
/// where the options are none.
#[unsafe(no_mangle)]
pub extern "C" fn txkv_store_open(alloc: Global, options: &[u8], at: &mut *mut u8) -> u32
    ensures kept { (result ≡ 1) ⊎ (at.new ≡ at.old) }
    ensures* opened { ∃ₛ (λ (made : Option Held). sem 𝓛 (owns_made alloc at.new made)
        ∗ ⌜ IfSome made (λ h. (result ≡ 1) × IsNew h.state) × IfNone made ((result ≡ 0) ⊎ (result ≡ 2)) ⌝) }
{
    match made::<Brand>(alloc, found(alloc, options)) {
        Ok(store) => {
            *at = Box::into_raw(store) as *mut u8;
            OPEN
        }
        Err(code) => code,
    }
}

/// Does what a request asks: the code of what is said of it.
#[unsafe(no_mangle)]
pub unsafe extern "C" fn txkv_store_call(alloc: Global, at: *mut u8, request: &[u8]) -> u32
    ghost g: { Held }
    requires* owns { sem 𝓛 (owns_store alloc at g) }
    ensures* { ∃ₛ (λ (h : Held). sem 𝓛 (owns_store alloc at h) ∗ ⌜ (h.name ≡ g.name)
        × Called g.name.bounds request.now g.state h.state × (result ≡ code_of h.state.said) ⌝) }
{
    call::<Brand>(&mut *(at as *mut EmbeddedStore<Brand>), request)
}

/// How many bytes tell what was said last. They are written to the first bytes of `out` where they
/// fit there, and else nothing is. 2^64 - 1 where memory was refused; it may be asked for again.
#[unsafe(no_mangle)]
pub unsafe extern "C" fn txkv_store_answer(alloc: Global, at: *mut u8, out: &mut [u8]) -> u64
    ghost g: { Held }
    requires* owns { sem 𝓛 (owns_store alloc at g) }
    ensures* { sem 𝓛 (owns_store alloc at g) ∗ ⌜
        ((result ≡ length (said_bytes g.state.said)) × (out.new ≡ laid_over (said_bytes g.state.said) out.old))
        ⊎ ((result ≡ 18446744073709551615) × (out.new ≡ out.old)) ⌝ }
{
    answer::<Brand>(&mut *(at as *mut EmbeddedStore<Brand>), out)
}

/// Closes a store: what it held is gone.
#[unsafe(no_mangle)]
pub unsafe extern "C" fn txkv_store_close(alloc: Global, at: *mut u8)
    ghost g: { Held }
    requires* owns { sem 𝓛 (owns_store alloc at g) }
{
    end::<Brand>(Box::from_raw(alloc, at as *mut EmbeddedStore<Brand>));
}
