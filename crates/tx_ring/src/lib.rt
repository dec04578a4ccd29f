//! Boxes as an SVG picture: each has a name and rows of text, and an arrow with words leads to the
//! next one; of a ring one leads from the last back to the first. A picture has no script, no font
//! and no link.
#![tactic(auto)]

mod markup;
mod ring;

pub use markup::put_text;
pub use ring::{
    Subject, Tie, put_box, put_close, put_end, put_end_of_box, put_head, put_row, put_tie, reach_of,
};
