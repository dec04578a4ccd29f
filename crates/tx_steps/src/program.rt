//! The programs that play scripts.

/// Who a script is for.
#[derive(Clone, Copy, Debug, PartialEq, Eq)]
pub enum Program {
    /// One thread, which makes the lines in their order. It may lose, repeat and hold requests.
    Simulate,
    /// Sessions side by side. It has seeds and transfers.
    Run,
}
