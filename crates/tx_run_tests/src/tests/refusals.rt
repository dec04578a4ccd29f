//! What stood in the way of the requests of a run.
use super::run;
use std::alloc::Global;
use std::sync::Wait;
use std::test::Fail;
use std::thread::Threads;
use tx_cells::Fresh;
use tx_flat::FlatCells;
use tx_nested::NestedCells;
use tx_run::{Refusals, Settings};

// A session leaves a lock behind; the next one under its name meets it and resolves it, and is
// refused an insert of a key that has a value.
const SCRIPT: &str = "[\"seed\",\"s\",\"1\"]
[\"begin\",\"A\"]
[\"put\",\"A\",\"k\",\"1\"]
[\"declare\",\"A\",\"two-phase\",10]
[\"prewrite\",\"A\"]
[\"stop\",\"A\"]
[\"begin\",\"A\"]
[\"get\",\"A\",\"k\"]
[\"resolve\",\"A\",1000]
[\"get\",\"A\",\"k\"]
[\"insert\",\"A\",\"s\",\"2\"]
[\"declare\",\"A\",\"two-phase\",10]
[\"prewrite\",\"A\"]
[\"stop\",\"A\"]
";

const MET: Refusals = Refusals {
    key_is_locked: 1,
    already_exists: 1,
    resolves: 1,
    ..Refusals::NONE
};

const TOLD: &str = "1 KeyIsLocked, 0 WriteConflict, 0 AlreadyRolledBack, 0 TxnLockNotFound, \
    0 CommitTsExpired, 1 AlreadyExists, 0 BelowSafePoint";

// How many lines were told each refusal in a run of the script, where as many requests were refused
// so; none where it was not played.
fn refused<F: Fresh + Send + Drop, R: Threads + Wait + Sync + Send + Clone + Drop>(
    rt: &R,
    alloc: Global,
) -> Option<Refusals> {
    let mut text = Vec::new(alloc);
    let refusals = match run::<F, R>(rt, alloc, Settings::new(1), SCRIPT.as_bytes(), &mut text) {
        Ok((_, Some(played))) => {
            let (refusals, requests) = (played.refusals, played.requests);
            drop(played);
            if refusals == requests {
                Some(refusals)
            } else {
                None
            }
        }
        Ok((_, None)) | Err(_) => None,
    };
    drop(text);
    refusals
}

#[test]
fn refusals_are_counted(rt: HostRuntime) -> Result<(), Fail> {
    assert_eq!(rt; refused::<FlatCells, _>(&rt, rt.alloc()), Some(MET));
    assert_eq!(rt; refused::<NestedCells, _>(&rt, rt.alloc()), Some(MET));
    let told = format!(in rt.alloc(); "{MET}")?;
    assert_eq!(rt; told.as_str(), TOLD);
    Ok(())
}
