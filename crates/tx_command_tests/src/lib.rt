//! What a user of `txkv` meets beside its output.
#![tactic(auto)]

#[cfg(test)]
mod agreement;
#[cfg(test)]
mod command_lines;
#[cfg(test)]
mod display;
#[cfg(test)]
mod generate;
#[cfg(test)]
mod help;
#[cfg(test)]
mod notes;
#[cfg(test)]
mod other_commands;
#[cfg(test)]
mod pictures;
#[cfg(test)]
mod sentences;
#[cfg(test)]
mod streams;
#[cfg(test)]
mod terminal;
