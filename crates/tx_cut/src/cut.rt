//! What is asked for of a sheet.

/// What is shown of a sheet. A line of no session is shown whatever sessions are named.
#[derive(Clone, Copy, Debug, PartialEq, Eq)]
pub struct Cut<'a> {
    /// The number of the first line that is shown.
    pub from: u64,
    /// The number of the last line that is shown.
    pub to: u64,
    /// The names of the keys that are shown; all are where none is named.
    pub keys: &'a [&'a str],
    /// The names of the sessions that are shown; all are where none is named.
    pub sessions: &'a [&'a str],
}

impl Cut<'_> {
    /// All of it.
    pub const ALL: Cut<'static> = Cut {
        from: 1,
        to: u64::MAX,
        keys: &[],
        sessions: &[],
    };

    /// Whether it names keys or sessions.
    pub fn has_names(&self) -> bool {
        !self.keys.is_empty() || !self.sessions.is_empty()
    }
}
