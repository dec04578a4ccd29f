//! What a request sees of its key.
ghost use Rattle.std.specs.Prelude.{◌≡◌, ◌≤◌, ℕ, None, IsTrue, option_map};
ghost use Rattle.tx_plan.specs.Views.{Shows};
ghost use Rattle.tx_cells.specs.Contents.{cells_of, nothing_held};
ghost use Rattle.tx_cells.specs.Heads.{lock_head};

use crate::key::KeyFamilies;
use crate::searches::{NestedHistory, head_at};
use tx_cells::{Above, commits_above};
use tx_plan::{LockHead, TxnView};
use tx_types::Ts;

/// What is seen of a key of which nothing is held.
pub(crate) fn empty_view(start: Ts, commit: Ts) -> TxnView
    ensures { Shows (cells_of nothing_held) start commit result }
{
    let _ = (start, commit);
    TxnView {
        lock: None,
        at_start: None,
        at_commit: None,
        own_commit: None,
        newest_above: None,
    }
}

impl KeyFamilies {
    ghost use Rattle.tx_nested.specs.Nested.{held};

    /// What is asked of the lock, where there is one.
    pub(crate) fn lock_head(&self) -> Option<LockHead>
        ensures { result ≡ option_map lock_head self.now.lock }
    {
        match &self.lock {
            Some(lock) => Some(lock.head()),
            None => None,
        }
    }

    // Whether each record is older than a start and a commit.
    fn is_past(&self, start: Ts, commit: Ts) -> bool
        ensures start { IsTrue result → (q : ℕ) → start ≤ q → (held self.now).write q ≡ None }
        ensures commit { IsTrue result → (q : ℕ) → commit ≤ q → (held self.now).write q ≡ None }
    {
        match self.writes.last() {
            Some((at, _)) => at < start && at < commit,
            None => true,
        }
    }

    // What a request sees of the key, whose lock has this head, by its records.
    fn view_by(&self, lock: Option<LockHead>, start: Ts, commit: Ts) -> TxnView
        requires { lock ≡ option_map lock_head self.now.lock }
        ensures { Shows (cells_of (held self.now)) start commit result }
    {
        let at_start = head_at(&self.writes, start);
        let at_commit = head_at(&self.writes, commit);
        let mut history = NestedHistory {
            writes: &self.writes,
        };
        let Above { own_commit, newest } = commits_above(&mut history, start);
        TxnView {
            lock,
            at_start,
            at_commit,
            own_commit,
            newest_above: newest,
        }
    }

    /// What a request of the transaction that started then sees of the key, and of the record at
    /// `commit`. Mostly all records are older.
    pub(crate) fn view(&self, start: Ts, commit: Ts) -> TxnView
        ensures { Shows (cells_of (held self.now)) start commit result }
    {
        let lock = self.lock_head();
        if self.is_past(start, commit) {
            return TxnView {
                lock,
                at_start: None,
                at_commit: None,
                own_commit: None,
                newest_above: None,
            };
        }
        self.view_by(lock, start, commit)
    }
}
