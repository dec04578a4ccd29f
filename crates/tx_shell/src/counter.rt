//! What counts the steps of a run.
use tx_latch::Cid;
use tx_sched::Gate;
use tx_streams::ProgressLine;

/// A gate that counts each step, where the progress is told.
#[derive(Clone, Copy)]
pub(crate) struct Watching<'a> {
    pub progress: &'a ProgressLine,
}

impl Gate for Watching<'_> {
    fn before(&self, _cid: Cid) {}

    fn after(&self, _cid: Cid) {
        if self.progress.is_told() {
            self.progress.add_step();
        }
    }
}
