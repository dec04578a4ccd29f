//! A played script as a drawing, an SVG: time goes down, sessions and keys are columns, requests
//! arrows, locks bars, commits and rollbacks marks, and a caption tells of the signs that stand in
//! it. A drawing has no script, no font and no link.
#![tactic(auto)]

mod caption;
mod drawing;
mod frame;
mod label;
mod layout;
mod locks;
mod markup;
mod rows;

pub use drawing::svg_of;
