//! What a request sees of its key.
ghost use Rattle.std.specs.Prelude.{◌≡◌, ◌<◌, ◌≤◌, ℕ, None, IfOk, IfErr, IsTrue, option_map};
ghost use Rattle.tx_plan.specs.Views.{Shows};
ghost use Rattle.tx_cells.specs.Contents.{cells_of};
ghost use Rattle.tx_cells.specs.Heads.{lock_head};

use crate::FlatCells;
use crate::searches::{FlatHistory, are_past, head_at};
use std::alloc::Global;
use tx_cells::{Above, commits_above};
use tx_plan::{LockHead, TxnView};
use tx_spelling::{EncodedKey, VersionBytes};
use tx_types::{Fault, Ts};

// Whether a ceiling is below a start and a commit.
fn is_older(ceiling: Ts, start: Ts, commit: Ts) -> bool
    ensures start { IsTrue result → ceiling < start }
    ensures commit { IsTrue result → ceiling < commit }
{
    ceiling < start && ceiling < commit
}

impl FlatCells {
    ghost use Rattle.tx_flat.specs.Flats.{flat_content};

    /// What a request sees of this version's key, whose lock has this head.
    #[inline(never)]
    pub(crate) fn view_by(
        &self,
        mut version: VersionBytes,
        lock: Option<LockHead>,
        start: Ts,
        commit: Ts,
    ) -> TxnView
        requires { lock ≡ option_map lock_head (flat_content self.now version.0).lock }
        ensures { Shows (cells_of (flat_content self.now version.0)) start commit result }
    {
        version.set_at(start);
        let at_start = head_at(&self.writes, &version);
        version.set_at(commit);
        let at_commit = head_at(&self.writes, &version);
        let mut history = FlatHistory {
            writes: &self.writes,
            version,
        };
        let Above { own_commit, newest } = commits_above(&mut history, start);
        TxnView {
            lock,
            at_start,
            at_commit,
            own_commit,
            newest_above: newest,
        }
    }

    /// Whether each record of a key is older than a start and a commit. Mostly its ceiling tells,
    /// and else one search.
    pub(crate) fn is_past(
        &self,
        alloc: Global,
        key: &EncodedKey<'_>,
        start: Ts,
        commit: Ts,
    ) -> Result<bool, Fault>
        ensures start { IfOk result (λ past. IsTrue past → (q : ℕ) → start ≤ q
            → (flat_content self.now key.now).write q ≡ None) }
        ensures commit { IfOk result (λ past. IsTrue past → (q : ℕ) → commit ≤ q
            → (flat_content self.now key.now).write q ≡ None) }
        ensures err { IfErr result (λ e. e ≡ Fault.OutOfMemory) }
    {
        if is_older(self.ceilings.of(key), start, commit) {
            return Ok(true);
        }
        let greatest = key.version(alloc, Ts::new(u64::MAX))?;
        Ok(are_past(&self.writes, &greatest, start, commit))
    }
}
