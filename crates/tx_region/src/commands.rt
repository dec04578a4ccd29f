//! The commands that are not of one key, one file each, and any command.
mod answer;
mod collect;
mod locks_below;
mod raise_safe;
mod scan;
