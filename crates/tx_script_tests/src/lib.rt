//! Scripts and traces over readers and writers that fail, lines at their limits, and scripts by
//! chance, a shape each. What each script and trace writes else is data (`crates/examples/data`).
#![tactic(auto)]

#[cfg(test)]
mod ends_tests;
#[cfg(test)]
mod generate_tests;
#[cfg(test)]
mod limits_tests;
#[cfg(test)]
mod streams;
