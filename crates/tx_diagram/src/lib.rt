//! A no, drawn: as a graph for Graphviz or as an SVG. Of a cycle a box each transaction, with its
//! line and its operations, and an arrow each edge, with what it says and what shows it; of a read
//! that cannot be who read it, and who is told of with it.
#![tactic(auto)]

mod boxes;
mod drawing;
mod picture;
mod reads;
mod refutation;

pub use drawing::{cycle_drawing, refuted_drawing};
pub use picture::cycle_picture;
pub use reads::{read_drawing, read_picture};
pub use refutation::{refuted_picture, refuted_pictures};
