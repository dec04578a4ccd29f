//! That the theorem over every run needs its premise: each condition of it, each of these cases of
//! the tables, and each of these rules of what answers leave.
ghost use Rattle.tx_plan.specs.Answers.{leaves};
ghost use Rattle.tx_core.specs.Legal.{IsLegal};
ghost use Rattle.tx_needed.specs.Forgets.{Forgets, CollectsAnywhere, IsBatchRollback, IsCheckSecondaryLocks, IsCheckTxnStatus, IsCommit, IsGet, IsPrewrite, IsRaiseSafe, IsScan, no_collection, no_commit, no_lock, no_mark, no_minimum, no_mode, no_put, no_reads, no_rollback, no_safe, on_locks, on_writes};
ghost use Rattle.tx_needed.specs.Leaves.{checks_unread, gets_unread, gives_no_mark, keeps_no_put, takes_no_mark};
ghost use Rattle.tx_needed.specs.Needed.{IsFalseBy, IsNeeded, Requests};
ghost use Rattle.tx_needed.specs.Rules.{AnswersAborted, AnswersCommitted, AnswersReadOnly, AnswersUnbegun, BeginsAgain, BeginsUndrawn, ChecksAnyKey, ChecksForced, ChecksOutside, ChecksUndeclared, CommitsAnyKey, CommitsBefore, CommitsAsync, CommitsEarly, CommitsUndrawn, DeclaresAgain, DeclaresNothing, DeclaresTwice, DeclaresUnbegun, DrawsAny, LoadsAhead, Misroutes, PassesByOthers, PassesCommitted, PassesShown, PassesUntold, PrewritesOther, PrewritesOtherwise, PrewritesOutside, PrewritesUndeclared, ResolvesBlindly, RollsBackAnyKey, RollsBackAsync, RollsBackUndeclared, SettlesAnywhere};

/// Each of these conditions on what is asked is needed: there is a run in which one request misses
/// it and meets the others, each other event may come, and no steps of the machine explain what is
/// answered.
pub fn requests_are_needed()
    ensures read_committed_above { IsNeeded (Requests PassesCommitted) }
    ensures read_shown_above { IsNeeded (Requests PassesShown) }
    ensures read_shown_told { IsNeeded (Requests PassesUntold) }
    ensures read_shown_own { IsNeeded (Requests PassesByOthers) }
    ensures prewrite_declared { IsNeeded (Requests PrewritesUndeclared) }
    ensures prewrite_key { IsNeeded (Requests PrewritesOutside) }
    ensures prewrite_mutation { IsNeeded (Requests PrewritesOther) }
    ensures prewrite_mode { IsNeeded (Requests PrewritesOtherwise) }
    ensures commit_primary { IsNeeded (Requests CommitsAnyKey) }
    ensures commit_accepted { IsNeeded (Requests CommitsEarly) }
    ensures commit_two_phase { IsNeeded (Requests CommitsAsync) }
    ensures commit_after { IsNeeded (Requests CommitsBefore) }
    ensures commit_drawn { IsNeeded (Requests CommitsUndrawn) }
    ensures commit_decided { IsNeeded (Requests SettlesAnywhere) }
    ensures rollback_declared { IsNeeded (Requests RollsBackUndeclared) }
    ensures rollback_primary { IsNeeded (Requests RollsBackAnyKey) }
    ensures rollback_two_phase { IsNeeded (Requests RollsBackAsync) }
    ensures status_primary { IsNeeded (Requests ChecksAnyKey) }
    ensures status_forced { IsNeeded (Requests ChecksForced) }
    ensures secondary_declared { IsNeeded (Requests ChecksUndeclared) }
    ensures secondary_key { IsNeeded (Requests ChecksOutside) }
    ensures resolve { IsNeeded (Requests ResolvesBlindly) }
{}

/// So is each of these conditions on what sessions do, and on where requests go and what is loaded.
pub fn events_are_needed()
    ensures draw { IsNeeded DrawsAny }
    ensures begin_drawn { IsNeeded BeginsUndrawn }
    ensures begin_once { IsNeeded BeginsAgain }
    ensures declare_begun { IsNeeded DeclaresUnbegun }
    ensures declare_once { IsNeeded DeclaresAgain }
    ensures declare_some { IsNeeded DeclaresNothing }
    ensures declare_distinct { IsNeeded DeclaresTwice }
    ensures answer_committed { IsNeeded AnswersCommitted }
    ensures answer_aborted { IsNeeded AnswersAborted }
    ensures answer_read_only { IsNeeded AnswersReadOnly }
    ensures answer_begun { IsNeeded AnswersUnbegun }
    ensures taken_loaded { IsNeeded LoadsAhead }
    ensures taken_holds { IsNeeded Misroutes }
{}

/// So is each of these cases of the tables: there is a run in which one region answers once as one
/// that has forgotten what the case looks at, and which nothing explains.
pub fn tables_are_needed()
    ensures get_lock { IsNeeded (Forgets IsGet (on_locks no_lock)) }
    ensures get_commit { IsNeeded (Forgets IsGet (on_writes no_commit)) }
    ensures get_safe { IsNeeded (Forgets IsGet no_safe) }
    ensures scan_lock { IsNeeded (Forgets IsScan (on_locks no_lock)) }
    ensures scan_commit { IsNeeded (Forgets IsScan (on_writes no_commit)) }
    ensures scan_safe { IsNeeded (Forgets IsScan no_safe) }
    ensures prewrite_minimum { IsNeeded (Forgets IsPrewrite no_reads) }
    ensures prewrite_rollback { IsNeeded (Forgets IsPrewrite (on_writes no_rollback)) }
    ensures prewrite_mark { IsNeeded (Forgets IsPrewrite (on_writes no_mark)) }
    ensures prewrite_commit { IsNeeded (Forgets IsPrewrite (on_writes no_commit)) }
    ensures prewrite_safe { IsNeeded (Forgets IsPrewrite no_safe) }
    ensures prewrite_value { IsNeeded (Forgets IsPrewrite (on_writes no_put)) }
    ensures prewrite_lock { IsNeeded (Forgets IsPrewrite (on_locks no_lock)) }
    ensures commit_minimum { IsNeeded (Forgets IsCommit (on_locks no_minimum)) }
    ensures rollback_commit { IsNeeded (Forgets IsBatchRollback (on_writes no_commit)) }
    ensures rollback_collected { IsNeeded (Forgets IsBatchRollback no_collection) }
    ensures status_lock { IsNeeded (Forgets IsCheckTxnStatus (on_locks no_lock)) }
    ensures status_async { IsNeeded (Forgets IsCheckTxnStatus (on_locks no_mode)) }
    ensures status_commit { IsNeeded (Forgets IsCheckTxnStatus (on_writes no_commit)) }
    ensures status_collected { IsNeeded (Forgets IsCheckTxnStatus no_collection) }
    ensures secondary_lock { IsNeeded (Forgets IsCheckSecondaryLocks (on_locks no_lock)) }
    ensures secondary_commit { IsNeeded (Forgets IsCheckSecondaryLocks (on_writes no_commit)) }
    ensures secondary_collected { IsNeeded (Forgets IsCheckSecondaryLocks no_collection) }
    ensures raise_safe { IsNeeded (Forgets IsRaiseSafe no_safe) }
    ensures collect_safe { IsNeeded CollectsAnywhere }
{}

/// So is each of these rules of what answers leave: there is a run of regions that leave less, by
/// which nothing else is changed, and which nothing explains.
pub fn leavings_are_needed()
    ensures record_takes_mark { IsFalseBy takes_no_mark }
    ensures rollback_gives_mark { IsFalseBy gives_no_mark }
    ensures collection_keeps_put { IsFalseBy keeps_no_put }
    ensures get_raises_read { IsFalseBy gets_unread }
    ensures insert_raises_read { IsFalseBy checks_unread }
{}

/// That is no trick of the words: by the premise as it stands, and by what answers leave, nothing
/// of the kind is there.
pub fn premise_is_enough()
    ensures premise { IsNeeded IsLegal → ⊥ }
    ensures leaves { IsFalseBy leaves → ⊥ }
{}
