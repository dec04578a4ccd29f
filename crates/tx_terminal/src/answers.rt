//! What a terminal has answered by others.
use std::alloc::Global;
use tx_cells::Fresh;
use tx_film::RunQuestion;
use tx_text::Broken;

/// What draws the run of a script and answers questions on it, over families of a kind.
pub trait Answers {
    /// The picture of the run of a script, as text. `Memory` where a growth was refused outside of
    /// a step's own calls.
    fn picture<F: Fresh>(&self, alloc: Global, script: &[u8]) -> Result<Vec<u8>, Broken>;

    /// The answer to a question on where a script stands, in lines of text. `Memory` as above.
    fn answer<F: Fresh>(
        &self,
        alloc: Global,
        question: RunQuestion,
        script: &[u8],
    ) -> Result<Vec<u8>, Broken>;
}
