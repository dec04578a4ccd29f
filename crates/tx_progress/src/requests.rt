//! How many requests each call sends.
ghost use Rattle.std.specs.Prelude.{◌≡◌, ℕ, ◌+◌, ◌*◌, ◌<◌, List, Option, length};
ghost use Rattle.tx_types.specs.declared.key.Key.{Key};
ghost use Rattle.tx_types.specs.declared.lock.LockInfo.{LockInfo};
ghost use Rattle.tx_types.specs.declared.mutation.Mode.TheVariants.{Async};
ghost use Rattle.tx_core.specs.Histories.{History, set_at};
ghost use Rattle.tx_core.specs.Laws.{WasToldOf};
ghost use Rattle.tx_core.specs.Worlds.{IsWorldRun};
ghost use Rattle.tx_transaction.specs.declared.state.Due.{Due};
ghost use Rattle.tx_transaction.specs.declared.state.Phase.{Phase};
ghost use Rattle.tx_transaction.specs.Sessions.{SessionState};
ghost use Rattle.tx_client.specs.Walks.{due_walk, heartbeat_walk, get_walk, scan_walk};
ghost use Rattle.tx_resolve.specs.BlockedReads.{read_walk};
ghost use Rattle.tx_resolve.specs.Collection.{gc_walk};
ghost use Rattle.tx_progress.specs.Requests.{AtMost, AnyResponse, Lists};

/// Each call sends at most so many requests: prewrite, commit, abort, a heartbeat and a get one; a
/// scan one to each region; a resolver one for each other key that the primary's async lock lists,
/// and three more; a collection three to each region, and for each lock that a region lists those
/// of a resolver. It is so whatever is lost or refused, and whatever else comes of them. An async
/// lock that was told lists fewer keys than its transaction has, so a resolver sends at most two
/// requests more than those.
pub fn requests_are_few()
    ensures phases { (s : SessionState) (x : Phase) (due : Option Due) → AtMost AnyResponse 1 (due_walk s x due) }
    ensures heartbeat { (s : SessionState) (ttl : ℕ) → AtMost AnyResponse 1 (heartbeat_walk s ttl) }
    ensures get { (s : SessionState) (k : Key) → AtMost AnyResponse 1 (get_walk s k) }
    ensures scan { (s : SessionState) (bounds : List Key) (from to : Key) (limit : ℕ)
        → AtMost AnyResponse (length bounds + 1) (scan_walk s bounds from to limit) }
    ensures resolve { (met : LockInfo) (at now locks others : ℕ)
        → AtMost (Lists locks others) (others + 3) (read_walk met at now) }
    ensures lists { (bounds : List Key) (h : History) (info : LockInfo) → IsWorldRun bounds h → WasToldOf h info
        → info.mode ≡ Async → length info.secondaries < length (set_at h info.start) }
    ensures gc { (bounds : List Key) (safe locks others : ℕ)
        → AtMost (Lists locks others) ((length bounds + 1) * (locks * (others + 3) + 3)) (gc_walk bounds safe) }
{}
