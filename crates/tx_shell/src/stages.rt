//! How far sessions were of a step that was not their next.
use std::alloc::Global;
use tx_film::ScriptStop;
use tx_run::SessionStage;

/// How far the session was that stopped a script, and, with the numbers of their lines, how far
/// those were that did not go on in a run.
#[derive(Drop)]
pub(crate) struct Stages {
    pub script: Option<SessionStage>,
    pub lines: Vec<(u64, SessionStage)>,
    /// Where a script stopped whose picture was drawn.
    pub stop: Option<ScriptStop>,
}

impl Stages {
    /// None so far.
    pub fn new(alloc: Global) -> Stages {
        Stages {
            script: None,
            lines: Vec::new(alloc),
            stop: None,
        }
    }

    /// How far the session of a fault on this line was.
    pub fn at(&self, number: u64) -> Option<SessionStage> {
        let found = self.lines.iter().find(|line| line.0 == number);
        match found {
            Some(line) => Some(line.1),
            None => self.script,
        }
    }
}
