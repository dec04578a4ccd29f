//! The rows of the case tables that an allowed request can meet, over records that other requests
//! made. One conflict cannot be met so, since no other transaction's commit record comes to stand
//! at a lock's commit timestamp: `conflict` has it of the plan alone.
pub mod ask;
mod check_txn_status;
mod collection;
mod conflict;
mod prewrite;
mod reads;
pub mod rows;
mod settlement;
pub mod short;
mod states;

use crate::table_tests::rows::{RegionRow, Row, first_wrong, first_wrong_in_region};
use tx_flat::FlatCells;
use tx_nested::NestedCells;

// The tables that say what stands on the key `k` in the end.
const TABLES: &[(&str, &[Row])] = &[
    ("Prewrite", prewrite::ROWS),
    ("Commit", settlement::COMMIT),
    ("BatchRollback", settlement::BATCH_ROLLBACK),
    ("TxnHeartBeat", settlement::TXN_HEART_BEAT),
    ("CheckTxnStatus", check_txn_status::ROWS),
    ("CheckSecondaryLocks", settlement::CHECK_SECONDARY_LOCKS),
    ("ResolveLock", settlement::RESOLVE_LOCK),
    ("Collect", collection::COLLECT_ON_KEY),
];

#[test]
fn rows_of_a_key(rt: HostRuntime) {
    for (name, rows) in TABLES {
        assert_eq!(rt;
            first_wrong::<NestedCells>(rt.alloc(), rows),
            None,
            "{name}"
        );
        assert_eq!(rt; first_wrong::<FlatCells>(rt.alloc(), rows), None, "{name}");
    }
}

// The tables that say what the numbers of the region are in the end.
const REGION_TABLES: &[(&str, &[RegionRow])] = &[
    ("Get", reads::GET),
    ("Scan", reads::SCAN),
    ("Prewrite of inserts", prewrite::INSERTS),
    ("RaiseSafe", collection::RAISE_SAFE),
    ("LocksBelow", collection::LOCKS_BELOW),
    ("Collect", collection::COLLECT),
];

#[test]
fn rows_of_a_region(rt: HostRuntime) {
    for (name, rows) in REGION_TABLES {
        assert_eq!(rt;
            first_wrong_in_region::<NestedCells>(rt.alloc(), rows),
            None,
            "{name}"
        );
        assert_eq!(rt;
            first_wrong_in_region::<FlatCells>(rt.alloc(), rows),
            None,
            "{name}"
        );
    }
}
