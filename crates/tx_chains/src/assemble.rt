//! Versions from chains.
ghost use Rattle.tx_recording.specs.Recordings.{IsRecording};

use crate::orders::add_orders;
use crate::plan::{ChainMember, ChainPlan, members_of};
use crate::puts::{Put, list_at, number, put_at};
use std::alloc::{AllocError, Global};
use tx_history::{Read, Recorded};
use tx_recording::{RecordedOp, Recording, Span};
use tx_verdict::{Case, Home, Lives, NO_SPAN, Versions, value_of};
use tx_views::{Effect, RecordedView, effect_of};

// Notes which version the values of a transaction are part of.
fn note_homes(homes: &mut [Home], ops: &[RecordedOp], key: u32, home: Home) {
    for i in 0..ops.len() {
        if ops[i].key != key {
            continue;
        }
        if let Some(value) = value_of(ops[i].act) {
            put_at(homes, value as usize, home);
        }
    }
}

// Where the values of a version lie, and adds those that are new.
fn add_text(texts: &mut Vec<u32>, before: Span, effect: &Effect) -> Result<Span, AllocError> {
    let first = number(texts.len());
    let own = effect.values.as_slice();
    texts.extend_from_slice(own)?;
    if effect.clears || before.count == 0 {
        return Ok(Span {
            first,
            count: number(own.len()),
        });
    }
    Ok(Span {
        first: before.first,
        count: number(before.count as usize + number(own.len()) as usize),
    })
}

// Adds a version behind another.
fn add_version(
    alloc: Global,
    versions: &mut Versions,
    recording: &Recording,
    put: Put,
    home: Home,
    before: Span,
) -> Result<Span, AllocError>
    requires { IsRecording recording.now }
{
    if put.txn as usize >= recording.transactions.len() {
        return Ok(before);
    }
    let ops = recording.ops_of(put.txn as usize);
    let effect = effect_of(alloc, ops, put.key)?;
    let span = add_text(&mut versions.texts, before, &effect)?;
    note_homes(versions.homes.as_mut_slice(), ops, put.key, home);
    versions.recorded.writers.push(put.txn)?;
    versions.spans.push(span)?;
    Ok(span)
}

// Adds the versions of a chain.
fn add_chain(
    alloc: Global,
    versions: &mut Versions,
    recording: &Recording,
    puts: &[Put],
    members: &[ChainMember],
    chain: u32,
) -> Result<(), AllocError>
    requires { IsRecording recording.now }
{
    let mut before = NO_SPAN;
    for i in 0..members.len() {
        let Some(put) = puts.get(members[i].put as usize) else {
            continue;
        };
        let home = Home {
            chain,
            version: number(i).saturating_add(1),
        };
        before = add_version(alloc, versions, recording, *put, home, before)?;
        versions.bases.push(members[i].base)?;
    }
    versions
        .recorded
        .heads
        .push(number(versions.recorded.writers.len()))?;
    Ok(())
}

// Which version a view is of.
fn read_of(recording: &Recording, homes: &[Home], view: RecordedView) -> Read {
    let list = list_at(recording, view.span);
    let mut version = 0;
    let mut key = view.key;
    if !list.is_empty() {
        if let Some(home) = homes.get(list[list.len() - 1] as usize) {
            version = home.version;
            key = home.chain;
        }
    }
    Read {
        txn: view.txn,
        key,
        version,
    }
}

// Adds which version each view is of.
fn add_reads(versions: &mut Versions, case: &Case<'_>) -> Result<(), AllocError> {
    for i in 0..case.views.len() {
        let read = read_of(case.recording, versions.homes.as_slice(), case.views[i]);
        versions.recorded.reads.push(read)?;
    }
    Ok(())
}

// No versions yet.
fn no_versions(
    alloc: Global,
    recording: &Recording,
    lives: &Lives,
    plan: Vec<u32>,
) -> Result<Versions, AllocError> {
    let mut heads = Vec::new(alloc);
    heads.push(0)?;
    Ok(Versions {
        recorded: Recorded {
            txns: number(recording.transactions.len()),
            heads,
            writers: Vec::new(alloc),
            reads: Vec::new(alloc),
            after: Vec::new(alloc),
        },
        names: plan,
        texts: Vec::new(alloc),
        spans: Vec::new(alloc),
        homes: vec![in alloc; NO_HOME; recording.values as usize]?,
        bases: Vec::new(alloc),
        shown: lives.shown.clone()?,
        live: lives.live.clone()?,
        times: Vec::new(alloc),
    })
}

// It is part of no version.
const NO_HOME: Home = Home {
    chain: 0,
    version: 0,
};

// The versions of the chains of a plan.
fn assemble(
    alloc: Global,
    case: &Case<'_>,
    puts: &[Put],
    lives: &Lives,
    plan: &ChainPlan,
) -> Result<Versions, AllocError>
    requires { IsRecording case.now.recording.now }
{
    let recording = case.recording;
    let mut versions = no_versions(alloc, recording, lives, plan.names.clone()?)?;
    for chain in 0..plan.names.len() {
        let members = members_of(plan, chain);
        add_chain(
            alloc,
            &mut versions,
            recording,
            puts,
            members,
            number(chain),
        )?;
    }
    add_reads(&mut versions, case)?;
    Ok(versions)
}

/// The versions of the chains of a plan, with what comes after what in the orders that are asked
/// for, and where serializability is.
pub fn versions_of(
    alloc: Global,
    case: &Case<'_>,
    lives: &Lives,
    puts: &[Put],
    plan: &ChainPlan,
) -> Result<Versions, AllocError>
    requires { IsRecording case.now.recording.now }
{
    let mut versions = assemble(alloc, case, puts, lives, plan)?;
    add_orders(alloc, &mut versions, case.recording, case.question)?;
    Ok(versions)
}
