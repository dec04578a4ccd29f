//! Sessions of several threads at one store.
ghost use Rattle.std.specs.Prelude.{◌≡◌, length};

mod chase;
mod gate;
mod parts;

use crate::calls::Op::{Commit, Declare, Draw, Prewrite, Put};
use crate::clients::{Call, Site};
use crate::store_tests::parts::{Part, Task, at_once, pass_on};
use crate::stores::two_regions;
use std::alloc::Global;
use std::marker::Brand;
use std::sync::Wait;
use std::test::Fail;
use std::thread::Threads;
use tx_cells::{Families, Fresh, Makes, Plain};
use tx_flat::FlatCells;
use tx_harness::open;
use tx_journal::{JournalId, Opened};
use tx_nested::NestedCells;
use tx_types::Mode::TwoPhase;

/// What threads do first, and what others do once they were told.
pub type Play<'a> = (&'a [Part<'a>], &'a [Part<'a>]);

// Whether all goes as well as it is to.
fn goes_well<J, F, M, R>(
    rt: &R,
    alloc: Global,
    opened: Opened,
    make: &M,
    play: Play<'_>,
) -> Option<bool>
where
    J: JournalId + Send + Sync,
    F: Families + Drop + Send,
    M: Makes<F>,
    R: Threads + Wait + Sync,
    requires name { (opened.table ≡ J.table) × (opened.bounds ≡ J.bounds) × (opened.seats ≡ J.seats) }
    requires two { length J.bounds ≡ 1 }
{
    let (store, mut seats) = open::<J, F, M>(alloc, opened, make, 2)?;
    let site = Site {
        rt,
        store: &store,
        alloc,
    };
    let (sum, is_well) = at_once(&site, &mut seats, play.0, 0)?;
    pass_on(&mut seats)?;
    let (_, ends_well) = at_once(&site, &mut seats, play.1, sum)?;
    drop(seats);
    drop(store);
    Some(is_well && ends_well)
}

/// Whether all goes as well as it is to, at a store of two regions with this key between them.
pub fn plays<F, M, R>(
    rt: &R,
    alloc: Global,
    between: &[u8],
    make: &M,
    play: Play<'_>,
) -> Option<bool>
where
    F: Families + Drop + Send,
    M: Makes<F>,
    R: Threads + Wait + Sync,
{
    let opened = two_regions(alloc, between, 5)?;
    goes_well::<Brand, F, M, R>(rt, alloc, opened, make, play)
}

// Two threads add to one key, each by transactions of its own.
#[test]
fn no_addition_is_lost(rt: HostRuntime) -> Result<(), Fail> {
    let both: &[Part<'_>] = &[(Task::Add, 2_000, 0), (Task::Add, 2_000, 0)];
    let play: Play<'_> = (both, &[(Task::ReadSum, 1, 1)]);
    assert_eq!(rt;
        plays::<NestedCells, _, _>(&rt, rt.alloc(), b"m", &Plain, play),
        Some(true)
    );
    assert_eq!(rt;
        plays::<FlatCells, _, _>(&rt, rt.alloc(), b"m", &Plain, play),
        Some(true)
    );
    Ok(())
}

// A put of 5 on `a`.
const SEED: &[Call<'_>] = &[
    (Put(b"a", b"5"), "ok"),
    (Declare(TwoPhase, None), "ok"),
    (Prewrite, "prewritten"),
    (Draw, "drawn"),
    (Commit, "committed"),
];

// A put of another key. A collection beside it may end what has not committed yet.
const PUT_BESIDE: &[Call<'_>] = &[
    (Put(b"b", b"6"), "ok"),
    (Declare(TwoPhase, None), "ok"),
    (Prewrite, "prewritten"),
    (Draw, "drawn"),
    (Commit, "committed"),
];

// Of four threads two read a key that was seeded, at fresh timestamps, one commits values to
// another key, and one collects at the last timestamp that it loads.
fn collects_beside<F: Fresh + Send, R: Threads + Wait + Sync>(
    rt: &R,
    alloc: Global,
) -> Option<bool> {
    let beside: &[Part<'_>] = &[
        (Task::ReadSeed, 200, 200),
        (Task::ReadSeed, 200, 200),
        (Task::Play(PUT_BESIDE), 200, 0),
        (Task::Collect, 200, 200),
    ];
    let seed: &[Part<'_>] = &[(Task::Play(SEED), 1, 1)];
    plays::<F, Plain, R>(rt, alloc, b"m", &Plain, (seed, beside))
}

#[test]
fn collections_beside_readers_of_nested_maps(rt: HostRuntime) -> Result<(), Fail> {
    assert_eq!(rt;
        collects_beside::<NestedCells, _>(&rt, rt.alloc()),
        Some(true)
    );
    Ok(())
}

#[test]
fn collections_beside_readers_of_flat_maps(rt: HostRuntime) -> Result<(), Fail> {
    assert_eq!(rt;
        collects_beside::<FlatCells, _>(&rt, rt.alloc()),
        Some(true)
    );
    Ok(())
}

// 5 on `a` and 6 on `z`, which lie in different regions.
const PUT_BOTH: &[Call<'_>] = &[
    (Put(b"a", b"5"), "ok"),
    (Put(b"z", b"6"), "ok"),
    (Declare(TwoPhase, None), "ok"),
    (Prewrite, "prewritten"),
    (Prewrite, "prewritten"),
    (Draw, "drawn"),
    (Commit, "committed"),
    (Commit, "committed"),
];

// What one thread has committed, another reads that begins after it was told. Beside each a thread
// does nothing.
#[test]
fn told_by_another_thread(rt: HostRuntime) -> Result<(), Fail> {
    let idle: Part<'_> = (Task::Play(&[]), 0, 0);
    let puts: &[Part<'_>] = &[(Task::Play(PUT_BOTH), 1, 1), idle];
    let reads: &[Part<'_>] = &[idle, (Task::ReadBoth, 1, 1)];
    let told = plays::<NestedCells, _, _>(&rt, rt.alloc(), b"m", &Plain, (puts, reads));
    assert_eq!(rt; told, Some(true));
    Ok(())
}
