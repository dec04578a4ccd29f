//! The calls of a region by name: each is the one that answers whatever is asked (`take`).
ghost use Rattle.std.specs.Prelude.{◌≡◌, IfSome, IfNone, IsSome};
ghost use Rattle.tx_core.specs.Worlds.{Holds};
ghost use Rattle.tx_journal.specs.Known.{HasSeen};
ghost use Rattle.tx_region.specs.Commands.{IsGet, IsScan, IsPrewrite, IsCommit, IsBatchRollback, IsTxnHeartBeat, IsCheckTxnStatus, IsCheckSecondaryLocks, IsResolveLock, IsRaiseSafe, IsLocksBelow, IsCollect};
ghost use Rattle.tx_region.specs.TakenRequests.{Answered};

use crate::region::Region;
use tx_cells::Families;
use tx_journal::{JournalId, Reply, Request};

impl<J: JournalId, F: Families> Region<J, F> {
    /// Answers a Get.
    pub fn get(&mut self, request: Request<J>) -> Reply<J>
        requires is { IsGet request.body }
        requires holds { Holds J.bounds self.old.seat request.body }
        ensures request { result.request ≡ request }
        ensures same { (self.new.seat ≡ self.old.seat) × (self.new.ticks ≡ self.old.ticks) }
        ensures told { self.new.events ≡ result.events }
        ensures answered { IfSome result.answer (Answered J.bounds self.old.seat self.old.events result) }
        ensures refused { IfNone result.answer (HasSeen J.bounds self.old.seat self.old.events self.new.events) }
    {
        self.take(request)
    }

    /// Answers a Scan.
    pub fn scan(&mut self, request: Request<J>) -> Reply<J>
        requires is { IsScan request.body }
        requires holds { Holds J.bounds self.old.seat request.body }
        ensures request { result.request ≡ request }
        ensures same { (self.new.seat ≡ self.old.seat) × (self.new.ticks ≡ self.old.ticks) }
        ensures told { self.new.events ≡ result.events }
        ensures answered { IfSome result.answer (Answered J.bounds self.old.seat self.old.events result) }
        ensures refused { IfNone result.answer (HasSeen J.bounds self.old.seat self.old.events self.new.events) }
    {
        self.take(request)
    }

    /// Answers a Prewrite.
    pub fn prewrite(&mut self, request: Request<J>) -> Reply<J>
        requires is { IsPrewrite request.body }
        requires holds { Holds J.bounds self.old.seat request.body }
        ensures request { result.request ≡ request }
        ensures same { (self.new.seat ≡ self.old.seat) × (self.new.ticks ≡ self.old.ticks) }
        ensures told { self.new.events ≡ result.events }
        ensures answered { IfSome result.answer (Answered J.bounds self.old.seat self.old.events result) }
        ensures refused { IfNone result.answer (HasSeen J.bounds self.old.seat self.old.events self.new.events) }
    {
        self.take(request)
    }

    /// Answers a Commit.
    pub fn commit(&mut self, request: Request<J>) -> Reply<J>
        requires is { IsCommit request.body }
        requires holds { Holds J.bounds self.old.seat request.body }
        ensures request { result.request ≡ request }
        ensures same { (self.new.seat ≡ self.old.seat) × (self.new.ticks ≡ self.old.ticks) }
        ensures told { self.new.events ≡ result.events }
        ensures answered { IfSome result.answer (Answered J.bounds self.old.seat self.old.events result) }
        ensures refused { IfNone result.answer (HasSeen J.bounds self.old.seat self.old.events self.new.events) }
    {
        self.take(request)
    }

    /// Answers a BatchRollback.
    pub fn batch_rollback(&mut self, request: Request<J>) -> Reply<J>
        requires is { IsBatchRollback request.body }
        requires holds { Holds J.bounds self.old.seat request.body }
        ensures request { result.request ≡ request }
        ensures same { (self.new.seat ≡ self.old.seat) × (self.new.ticks ≡ self.old.ticks) }
        ensures told { self.new.events ≡ result.events }
        ensures answered { IfSome result.answer (Answered J.bounds self.old.seat self.old.events result) }
        ensures refused { IfNone result.answer (HasSeen J.bounds self.old.seat self.old.events self.new.events) }
    {
        self.take(request)
    }

    /// Answers a TxnHeartBeat.
    pub fn txn_heart_beat(&mut self, request: Request<J>) -> Reply<J>
        requires is { IsTxnHeartBeat request.body }
        requires holds { Holds J.bounds self.old.seat request.body }
        ensures request { result.request ≡ request }
        ensures same { (self.new.seat ≡ self.old.seat) × (self.new.ticks ≡ self.old.ticks) }
        ensures told { self.new.events ≡ result.events }
        ensures answered { IfSome result.answer (Answered J.bounds self.old.seat self.old.events result) }
        ensures refused { IfNone result.answer (HasSeen J.bounds self.old.seat self.old.events self.new.events) }
    {
        self.take(request)
    }

    /// Answers a CheckTxnStatus.
    pub fn check_txn_status(&mut self, request: Request<J>) -> Reply<J>
        requires is { IsCheckTxnStatus request.body }
        requires holds { Holds J.bounds self.old.seat request.body }
        ensures request { result.request ≡ request }
        ensures same { (self.new.seat ≡ self.old.seat) × (self.new.ticks ≡ self.old.ticks) }
        ensures told { self.new.events ≡ result.events }
        ensures answered { IfSome result.answer (Answered J.bounds self.old.seat self.old.events result) }
        ensures refused { IfNone result.answer (HasSeen J.bounds self.old.seat self.old.events self.new.events) }
    {
        self.take(request)
    }

    /// Answers a CheckSecondaryLocks.
    pub fn check_secondary_locks(&mut self, request: Request<J>) -> Reply<J>
        requires is { IsCheckSecondaryLocks request.body }
        requires holds { Holds J.bounds self.old.seat request.body }
        ensures request { result.request ≡ request }
        ensures same { (self.new.seat ≡ self.old.seat) × (self.new.ticks ≡ self.old.ticks) }
        ensures told { self.new.events ≡ result.events }
        ensures answered { IfSome result.answer (Answered J.bounds self.old.seat self.old.events result) }
        ensures refused { IfNone result.answer (HasSeen J.bounds self.old.seat self.old.events self.new.events) }
    {
        self.take(request)
    }

    /// Answers a ResolveLock.
    pub fn resolve_lock(&mut self, request: Request<J>) -> Reply<J>
        requires is { IsResolveLock request.body }
        requires holds { Holds J.bounds self.old.seat request.body }
        ensures request { result.request ≡ request }
        ensures same { (self.new.seat ≡ self.old.seat) × (self.new.ticks ≡ self.old.ticks) }
        ensures told { self.new.events ≡ result.events }
        ensures answered { IfSome result.answer (Answered J.bounds self.old.seat self.old.events result) }
        ensures refused { IfNone result.answer (HasSeen J.bounds self.old.seat self.old.events self.new.events) }
    {
        self.take(request)
    }

    /// Answers a RaiseSafe, which takes no memory.
    pub fn raise_safe(&mut self, request: Request<J>) -> Reply<J>
        requires is { IsRaiseSafe request.body }
        requires holds { Holds J.bounds self.old.seat request.body }
        ensures request { result.request ≡ request }
        ensures same { (self.new.seat ≡ self.old.seat) × (self.new.ticks ≡ self.old.ticks) }
        ensures told { self.new.events ≡ result.events }
        ensures answered { IfSome result.answer (Answered J.bounds self.old.seat self.old.events result) }
        ensures always { IsSome result.answer }
        ensures refused { IfNone result.answer (HasSeen J.bounds self.old.seat self.old.events self.new.events) }
    {
        self.take(request)
    }

    /// Answers a LocksBelow.
    pub fn locks_below(&mut self, request: Request<J>) -> Reply<J>
        requires is { IsLocksBelow request.body }
        requires holds { Holds J.bounds self.old.seat request.body }
        ensures request { result.request ≡ request }
        ensures same { (self.new.seat ≡ self.old.seat) × (self.new.ticks ≡ self.old.ticks) }
        ensures told { self.new.events ≡ result.events }
        ensures answered { IfSome result.answer (Answered J.bounds self.old.seat self.old.events result) }
        ensures refused { IfNone result.answer (HasSeen J.bounds self.old.seat self.old.events self.new.events) }
    {
        self.take(request)
    }

    /// Answers a Collect.
    pub fn collect(&mut self, request: Request<J>) -> Reply<J>
        requires is { IsCollect request.body }
        requires holds { Holds J.bounds self.old.seat request.body }
        ensures request { result.request ≡ request }
        ensures same { (self.new.seat ≡ self.old.seat) × (self.new.ticks ≡ self.old.ticks) }
        ensures told { self.new.events ≡ result.events }
        ensures answered { IfSome result.answer (Answered J.bounds self.old.seat self.old.events result) }
        ensures refused { IfNone result.answer (HasSeen J.bounds self.old.seat self.old.events self.new.events) }
    {
        self.take(request)
    }
}
