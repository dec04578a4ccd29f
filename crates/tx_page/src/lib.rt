//! The run of a script as one HTML page: its drawing, a table of its lines, and its film as data,
//! over which the page's own script moves.
#![tactic(auto)]

mod data;
mod foot;
mod head;
mod lines;
mod page;
mod table;

pub use page::page_of;
