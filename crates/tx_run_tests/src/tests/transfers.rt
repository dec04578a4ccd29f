//! Transfers between ten accounts, by several numbers of workers: what is written, and that the sum
//! of all balances stays.
use super::run;
use std::alloc::{AllocError, Global};
use std::sync::Wait;
use std::test::Fail;
use std::thread::Threads;
use tx_cells::Fresh;
use tx_core::Outcome;
use tx_flat::FlatCells;
use tx_nested::NestedCells;
use tx_run::{LineAnswer, LineReply, RunResult, Settings};
use tx_text::{Broken, End};

// Ten accounts with 100 each, in four regions, and so many transfers of 1 by each of these
// sessions.
fn transfers(alloc: Global, sessions: u32, rounds: u32) -> Result<String, AllocError> {
    let mut text = String::from_str(alloc, "[\"regions\",[\"a3\",\"a5\",\"a8\"]]\n")?;
    for k in 0..10_u32 {
        let line = format!(in alloc; "[\"seed\",\"a{k}\",\"100\"]\n")?;
        text.push_str(line.as_str())?;
    }
    for i in 0..rounds {
        for j in 0..sessions {
            let line = transfer(alloc, i, j)?;
            text.push_str(line.as_str())?;
        }
    }
    Ok(text)
}

fn transfer(alloc: Global, i: u32, j: u32) -> Result<String, AllocError> {
    let from = i.wrapping_add(j) % 10;
    let to = i
        .wrapping_mul(3)
        .wrapping_add(j.wrapping_mul(7))
        .wrapping_add(1)
        % 10;
    let mode = if j % 2 == 0 { "async" } else { "two-phase" };
    format!(in alloc; "[\"transfer\",\"S{j}\",\"a{from}\",\"a{to}\",1,\"{mode}\"]\n")
}

// How many outcomes of each kind there are, how many answers, and the sum of all balances; of the
// text how many lines it has, and whether the last two of them tell of just this.
#[derive(Clone, Copy, Debug, PartialEq, Eq)]
struct Sums {
    answers: usize,
    committed: u32,
    aborted: u32,
    unknown: u32,
    read_only: u32,
    total: u128,
    collected: u64,
    lines: usize,
    told: bool,
}

// Adds the answers of a part.
fn add_part(sums: &mut Sums, replies: &[LineReply]) {
    sums.answers = sums.answers.wrapping_add(replies.len());
    for reply in replies {
        match &reply.answer {
            LineAnswer::Plain(_) => {}
            LineAnswer::Ended(_, Outcome::Committed(_), _) => sums.committed = sums
                .committed
                .wrapping_add(1),
            LineAnswer::Ended(_, Outcome::Aborted, _) => sums.aborted = sums
                .aborted
                .wrapping_add(1),
            LineAnswer::Ended(_, Outcome::Unknown(_), _) => sums.unknown = sums
                .unknown
                .wrapping_add(1),
            LineAnswer::Ended(_, Outcome::ReadOnly, _) => sums.read_only = sums
                .read_only
                .wrapping_add(1),
        }
    }
}

// Whether the last two lines of the text tell of these sums.
fn tells(alloc: Global, text: &[u8], sums: &Sums) -> Result<bool, AllocError> {
    let Sums {
        committed,
        aborted,
        unknown,
        read_only,
        total,
        ..
    } = sums;
    let last = format!(in alloc;
        "\n[\"outcomes\",{committed},{aborted},{unknown},{read_only}]\n[\"total\",{total}]\n"
    )?;
    Ok(text.ends_with(last.as_bytes()))
}

fn count_lines(text: &[u8]) -> usize {
    text.iter().filter(|byte| **byte == b'\n').count()
}

fn sums_of(alloc: Global, played: &RunResult, text: &[u8]) -> Result<Sums, AllocError> {
    let mut sums = Sums {
        answers: 0,
        committed: 0,
        aborted: 0,
        unknown: 0,
        read_only: 0,
        total: played.total,
        collected: played.collected,
        lines: count_lines(text),
        told: false,
    };
    for part in played.replies.parts() {
        add_part(&mut sums, part.as_slice());
    }
    sums.told = tells(alloc, text, &sums)?;
    Ok(sums)
}

// The sums of a run that ended well.
fn sums_after(
    alloc: Global,
    ended: Result<(End, Option<RunResult>), Broken>,
    text: &[u8],
) -> Result<Option<Sums>, Broken> {
    match ended? {
        (End::Well, Some(played)) => {
            let sums = sums_of(alloc, &played, text);
            drop(played);
            Ok(Some(sums?))
        }
        (_, played) => {
            drop(played);
            Ok(None)
        }
    }
}

// How many answers there are.
pub(super) fn answers_of(played: &RunResult) -> usize {
    let mut count = 0_usize;
    for part in played.replies.parts() {
        count = count.wrapping_add(part.as_slice().len());
    }
    count
}

// What comes of a hundred rounds of transfers by so many sessions.
fn sums_by<F: Fresh + Send + Drop, R: Threads + Wait + Sync + Send + Clone + Drop>(
    rt: &R,
    alloc: Global,
    settings: Settings,
    sessions: u32,
) -> Result<Option<Sums>, Broken> {
    let script = transfers(alloc, sessions, 100)?;
    let mut text = Vec::new(alloc);
    let ended = run::<F, R>(rt, alloc, settings, script.as_bytes(), &mut text);
    drop(script);
    let sums = sums_after(alloc, ended, text.as_slice());
    drop(text);
    sums
}

// What must be so of eight sessions, whatever the schedule.
fn keeps(sums: Sums) -> bool {
    let ended = sums
        .committed
        .wrapping_add(sums.aborted)
        .wrapping_add(sums.read_only);
    sums.answers == 811
        && sums.lines == 813
        && sums.told
        && sums.unknown == 0
        && ended == 800
        && sums.total == 1000
}

#[test]
fn transfers_keep_the_total(rt: HostRuntime) -> Result<(), Fail> {
    for workers in [1, 2, 4, 8] {
        let flat = sums_by::<FlatCells, _>(&rt, rt.alloc(), Settings::new(workers), 8)?;
        assert!(rt; flat.is_some_and(keeps), "{workers} workers: {flat:?}");
        let nested = sums_by::<NestedCells, _>(&rt, rt.alloc(), Settings::new(workers), 8)?;
        assert!(rt; nested.is_some_and(keeps), "{workers} workers: {nested:?}");
    }
    Ok(())
}

// What one session comes to: the last two lines are `["outcomes",100,0,0,0]` and `["total",1000]`.
const ALL_COMMITTED: Sums = Sums {
    answers: 111,
    committed: 100,
    aborted: 0,
    unknown: 0,
    read_only: 0,
    total: 1000,
    collected: 0,
    lines: 113,
    told: true,
};

#[test]
fn one_session_commits_each_transfer(rt: HostRuntime) -> Result<(), Fail> {
    for workers in [1, 2, 4, 8] {
        let flat = sums_by::<FlatCells, _>(&rt, rt.alloc(), Settings::new(workers), 1)?;
        assert_eq!(rt; flat, Some(ALL_COMMITTED), "{workers} workers");
        let nested = sums_by::<NestedCells, _>(&rt, rt.alloc(), Settings::new(workers), 1)?;
        assert_eq!(rt; nested, Some(ALL_COMMITTED), "{workers} workers");
    }
    Ok(())
}

// Whether one session committed each of its transfers, and versions were collected beside it.
fn collects(sums: Sums) -> bool {
    sums.committed == 100 && sums.total == 1000 && sums.collected > 0
}

#[test]
fn one_session_collects_meanwhile(rt: HostRuntime) -> Result<(), Fail> {
    for workers in [1, 2] {
        let settings = Settings {
            workers,
            life_time: Some(20),
        };
        let sums = sums_by::<FlatCells, _>(&rt, rt.alloc(), settings, 1)?;
        assert!(rt; sums.is_some_and(collects), "{workers} workers: {sums:?}");
    }
    Ok(())
}
