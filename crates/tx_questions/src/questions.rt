//! What is asked of a script's run where it stands.
use crate::machine::values_now;
use crate::refusal::last_refusal;
use crate::requests::requests_held;
use std::alloc::Global;
use tx_cells::{Families, Makes};
use tx_film::{RunQuestion, film_lines, keys_of, lines_of};
use tx_text::Broken;

/// Plays a script as `simulate` does, up to a fault, and answers a question on where it then
/// stands, in lines of text. `Memory` where a growth was refused outside of a step's own calls.
pub fn answer<F: Families + Drop, M: Makes<F>>(
    alloc: Global,
    make: &M,
    question: RunQuestion,
    script: &[u8],
) -> Result<Vec<u8>, Broken> {
    let lines = lines_of(alloc, script)?;
    let keys = keys_of(alloc, lines.as_slice())?;
    let film = film_lines::<F, M>(alloc, make, keys.as_slice(), lines.as_slice())?;
    match question {
        RunQuestion::Held => requests_held(alloc, lines.as_slice(), &film),
        RunQuestion::Machine => values_now(alloc, keys.as_slice(), film.all_steps()),
        RunQuestion::Why => last_refusal(alloc, keys.as_slice(), lines.as_slice(), &film),
    }
}
