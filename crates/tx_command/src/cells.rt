//! How the regions keep their families, as a command line says it.
use clap::builder::ValueParser;
use clap::{Arg, ArgMatches};
use std::alloc::Global;

/// The families that the regions of a command have.
#[derive(Clone, Copy, Debug, PartialEq, Eq)]
pub enum CellsKind {
    /// Maps from the bytes of keys and versions to those of records.
    Flat,
    /// A map from keys to what is held of each.
    Nested,
}

static NAMES: [&str; 2] = ["flat", "nested"];

/// The option that says it.
pub fn cells_option<'a>(alloc: Global) -> Arg<'a> {
    Arg::new(alloc, "cells")
        .long("cells")
        .value_name("KIND")
        .help("How the regions keep what they hold; the replies are the same")
        .value_parser(ValueParser::Names(&NAMES))
        .default_value("flat")
}

/// What a command line says of it: flat maps where it says nothing.
pub fn cells_of(asked: &ArgMatches<'_>) -> CellsKind {
    match asked.get_str("cells") {
        Some("nested") => CellsKind::Nested,
        _ => CellsKind::Flat,
    }
}
