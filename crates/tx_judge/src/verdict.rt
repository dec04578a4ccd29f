//! Whether a recording is snapshot isolation, or serializable.
ghost use Rattle.std.specs.Prelude.{IfOk};
ghost use Rattle.tx_recording.specs.Recordings.{IsRecording};
ghost use Rattle.tx_views.specs.Views.{IsViewed};
ghost use Rattle.tx_views.specs.Owners.{AreOwners, IsOwned};
ghost use Rattle.tx_verdict.specs.Cases.{IsWhole};
ghost use Rattle.tx_verdict.specs.Verdicts.{IsVerdict};

use crate::search::judge_parts;
use std::alloc::{AllocError, Global};
use tx_chains::{ChainParts, follows_of, lives_of, number, put_at, puts_of};
use tx_recording::Recording;
use tx_verdict::{
    Case, HistoryVerdict, Question, holds_list, internal, list_keys, wrong_lists, wrong_update,
    wrong_views,
};
use tx_views::{Owned, Owner, RecordedView, Viewed, owners, views};

// By key, the view with most values, where the key holds a list.
fn longest_of(
    alloc: Global,
    case: &Case<'_>,
    lists: &[bool],
) -> Result<Vec<Option<u32>>, AllocError> {
    let mut longest = vec![in alloc; None; case.recording.keys as usize]?;
    let views = case.views;
    for place in 0..views.len() {
        let key = views[place].key;
        let most = count_at(longest.as_slice(), views, key as usize);
        if holds_list(lists, key) && views[place].span.count > most {
            put_at(longest.as_mut_slice(), key as usize, Some(number(place)));
        }
    }
    Ok(longest)
}

// How many values the view has that a table has of a key.
fn count_at(longest: &[Option<u32>], views: &[RecordedView], key: usize) -> u32 {
    let Some(Some(place)) = longest.get(key) else {
        return 0;
    };
    match views.get(*place as usize) {
        Some(view) => view.span.count,
        None => 0,
    }
}

// What the recording is, by what was seen.
fn judge_views(alloc: Global, case: &Case<'_>, budget: u32) -> Result<HistoryVerdict, AllocError>
    requires case { IsWhole case.now }
    ensures { IfOk result (IsVerdict case.now.recording.now case.now.question) }
{
    if let Some(fact) = wrong_views(alloc, case)? {
        return Ok(HistoryVerdict::Fact(fact));
    }
    let lists = list_keys(alloc, case.recording)?;
    let longest = longest_of(alloc, case, lists.as_slice())?;
    if let Some(fact) = wrong_lists(alloc, case, lists.as_slice(), longest.as_slice())? {
        return Ok(HistoryVerdict::Fact(fact));
    }
    let lives = lives_of(alloc, case)?;
    let puts = puts_of(alloc, case, lives.live.as_slice())?;
    let follows = follows_of(alloc, case, puts.all.as_slice())?;
    if let Some(lost) = follows.lost {
        if let Some(fact) = wrong_update(case, lost) {
            return Ok(HistoryVerdict::Fact(fact));
        }
    }
    let parts = ChainParts {
        puts,
        follows,
        longest,
    };
    judge_parts(alloc, case, &lives, &parts, budget)
}

// What the recording is, by what its reads say.
fn judge_viewed(
    alloc: Global,
    recording: &Recording,
    owners: &[Option<Owner>],
    viewed: Viewed,
    question: Question,
    budget: u32,
) -> Result<HistoryVerdict, AllocError>
    requires recording { IsRecording recording.now }
    requires owners { AreOwners recording.now owners.now }
    requires viewed { IsViewed recording.now viewed }
    ensures { IfOk result (IsVerdict recording.now question) }
{
    match viewed {
        Viewed::Views(views) => {
            let case = Case {
                recording,
                owners,
                views: views.as_slice(),
                question,
            };
            judge_views(alloc, &case, budget)
        }
        Viewed::Internal(txn, place) => Ok(HistoryVerdict::Fact(internal(recording, txn, place))),
    }
}

// What the recording is, by who put its values.
fn judge_owned(
    alloc: Global,
    recording: &Recording,
    owned: Owned,
    question: Question,
    budget: u32,
) -> Result<HistoryVerdict, AllocError>
    requires recording { IsRecording recording.now }
    requires owned { IsOwned recording.now owned }
    ensures { IfOk result (IsVerdict recording.now question) }
{
    match owned {
        Owned::Once(table) => {
            let viewed = views(alloc, recording)?;
            judge_viewed(alloc, recording, table.as_slice(), viewed, question, budget)
        }
        Owned::Twice(twice) => {
            Ok(HistoryVerdict::Twice(twice.first.txn, twice.second.txn, twice.value))
        }
    }
}

/// Whether a recording is snapshot isolation or serializable, as is asked for, in the orders that
/// are asked for.
///
/// Where the order of two puts into a key is not known, it is looked for; a search learns from at
/// most `budget` cycles that it meets, and where it has spent them the verdict is open.
/// `AllocError` where there was no room to find out.
pub fn judge(
    alloc: Global,
    recording: &Recording,
    question: Question,
    budget: u32,
) -> Result<HistoryVerdict, AllocError>
    requires { IsRecording recording.now }
    ensures { IfOk result (IsVerdict recording.now question) }
{
    let owned = owners(alloc, recording)?;
    judge_owned(alloc, recording, owned, question, budget)
}
