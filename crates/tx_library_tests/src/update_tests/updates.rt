//! Updates that go well, are tried again, or stop.
ghost use Rattle.std.specs.Prelude.{◌≡◌, length};

use crate::calls::Op;
use crate::clients::{Call, Site, transact};
use crate::stores::{pair, two_regions};
use crate::update_tests::cases::{Before, CASES, Case};
use crate::update_tests::works::{Deed, Doing, run};
use std::alloc::Global;
use std::marker::Brand;
use std::sync::Wait;
use std::test::Fail;
use tx_cells::{Families, Fresh, Plain};
use tx_harness::{Faulty, open};
use tx_journal::{JournalId, Opened, Seat};
use tx_nested::NestedCells;
use tx_store::Wire;
use tx_types::Mode;
use tx_update::Seats;

// How an update ends, in words, how often it was done, and the seats.
type Ended<J> = ((&'static str, &'static str), u32, Seats<J>);

const PUT_5: &[Call<'_>] = &[
    (Op::Put(b"a", &[5]), "ok"),
    (Op::Declare(Mode::TwoPhase, None), "ok"),
    (Op::Prewrite, "prewritten"),
    (Op::Draw, "drawn"),
    (Op::Commit, "committed"),
];

// What stands there before; a rival has not come yet.
fn prepare<J: JournalId, F: Families + Drop, R: Wait>(
    site: &Site<'_, J, F, R>,
    seat: Seat<J>,
    before: Before,
) -> Option<u64> {
    match before {
        Before::Empty | Before::Rival => {
            drop(seat);
            Some(0)
        }
        Before::Value => transact(site, seat, PUT_5),
        Before::Lock(ttl) => {
            let lock: &[Call<'_>] = &[
                (Op::Put(b"a", &[7]), "ok"),
                (Op::DeclareFor(ttl), "ok"),
                (Op::Prewrite, "prewritten"),
            ];
            transact(site, seat, lock)
        }
    }
}

// Runs the update of a case, by requests that are sent so.
fn update_by<'a, J: JournalId, F: Families + Drop, R: Wait>(
    site: &Site<'a, J, F, R>,
    seats: Seats<J>,
    rival: Option<Seat<J>>,
    case: &Case,
    sender: &mut Faulty<'_, J, F, R>,
) -> Option<Ended<J>> {
    let Case(_, (skipped, delivery), (deed, mode), again, _, _, _) = *case;
    let mut work = Doing::new(site, rival, deed);
    sender.set_delivery(delivery);
    sender.skip(skipped);
    sender.show();
    let ended = run(site.alloc, seats, mode, again, &mut work, sender);
    let calls = work.calls;
    drop(work);
    let (ends, seats) = ended?;
    Some((ends, calls, seats))
}

// What the key `a` has.
fn last_of<J: JournalId, F: Families + Drop, R: Wait>(
    site: &Site<'_, J, F, R>,
    seats: Seats<J>,
) -> Option<u8> {
    let mut wire = Wire::new(site.rt, site.store);
    let mut read = Doing::new(site, None, Deed::Read);
    drop(run(site.alloc, seats, Mode::Async, 0, &mut read, &mut wire)?);
    Some(read.read)
}

// Whether a case ends as it says.
fn ends_so<J: JournalId, F: Families + Drop, R: Wait>(
    site: &Site<'_, J, F, R>,
    seats: &mut Vec<Seat<J>>,
    case: &Case,
) -> Option<bool> {
    let Case(before, _, _, _, ends, calls, last) = *case;
    prepare(site, seats.pop()?, before)?;
    let rival = match before {
        Before::Rival => seats.pop(),
        _ => None,
    };
    let (begins, resolves) = pair(seats)?;
    let mut sender = Faulty::new(Wire::new(site.rt, site.store), seats.pop()?);
    let own = Seats { begins, resolves };
    let ended = update_by(site, own, rival, case, &mut sender);
    drop(sender);
    let (ended, done, own) = ended?;
    let found = last_of(site, own)?;
    Some(ended == ends && done == calls && found == last)
}

fn plays<J: JournalId, F: Fresh, R: Wait>(
    rt: &R,
    alloc: Global,
    opened: Opened,
    case: &Case,
) -> Option<bool>
    requires name { (opened.table ≡ J.table) × (opened.bounds ≡ J.bounds) × (opened.seats ≡ J.seats) }
    requires two { length J.bounds ≡ 1 }
{
    let (store, mut seats) = open::<J, F, Plain>(alloc, opened, &Plain, 2)?;
    let site = Site {
        rt,
        store: &store,
        alloc,
    };
    let is = ends_so(&site, &mut seats, case);
    drop(seats);
    drop(store);
    is
}

// A store of its own for each case.
fn holds<R: Wait>(rt: &R, alloc: Global, case: &Case) -> Option<bool> {
    let opened = two_regions(alloc, b"m", 6)?;
    plays::<Brand, NestedCells, R>(rt, alloc, opened, case)
}

#[test]
fn updates_end_as_they_say(rt: HostRuntime) -> Result<(), Fail> {
    for (place, case) in CASES.iter().enumerate() {
        assert!(rt; holds(&rt, rt.alloc(), case) == Some(true), "case {place}");
    }
    Ok(())
}
