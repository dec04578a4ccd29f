//! Changes, made as the commands of a region make them: what is seen of the key, the plan, and the
//! change.
ghost use Rattle.std.specs.Prelude.{◌≡◌, IfSome};
ghost use Rattle.tx_plan.specs.Changes.{new_lock, CanPut};
ghost use Rattle.tx_cells.specs.Contents.{cells_of};

use crate::cells::steps::At;
use std::alloc::Global;
use tx_cells::Families;
use tx_plan::{
    BatchRollback, Commit, Dropped, KeyChange, Plan, Prewrite, plan_batch_rollback, plan_commit,
    plan_prewrite,
};
use tx_spelling::EncodedKey;
use tx_types::{Fault, Key, Mode, Mutation, Secondaries, Ts, Value};

/// What values are cut from.
static BYTES: [u8; 1_000] = [7; 1_000];

/// What asks for a lock in two phases.
fn body(alloc: Global, key: Key, start: u64, mutation: Mutation) -> Result<Prewrite, Fault> {
    let primary = key.clone()?;
    Ok(Prewrite {
        key,
        mutation,
        start: Ts::new(start),
        primary,
        mode: Mode::TwoPhase,
        max_commit: None,
        floor: Ts::ZERO,
        ttl: 10,
        others: Secondaries::new(alloc),
    })
}

// Puts the lock that a plan puts; whether it puts one.
fn put_lock<F: Families>(
    alloc: Global,
    families: &mut F,
    key: &EncodedKey<'_>,
    body: &Prewrite,
    change: KeyChange,
) -> Result<bool, Fault>
    requires of { key.now ≡ body.now.key }
    requires can { IfSome (new_lock change)
        (λ new. CanPut (cells_of (F.content families.old body.now.key)) body.now new) }
{
    match change {
        KeyChange::Lock(new) => {
            families.put_lock(alloc, key, body, new, 1)?;
            Ok(true)
        }
        _ => Ok(false),
    }
}

// The change alone.
fn change_of(planned: Plan) -> KeyChange
    ensures { result ≡ planned.change }
{
    let change = planned.change;
    drop(planned);
    change
}

fn locks<F: Families>(alloc: Global, families: &mut F, body: &Prewrite) -> Result<bool, Fault> {
    let key = EncodedKey::new(alloc, &body.key)?;
    let view = families.view(alloc, &key, body.start, body.start)?;
    let loaded = Ts::new(1_000_000);
    let planned = plan_prewrite(&view, false, Ts::ZERO, loaded, Ts::ZERO, body);
    put_lock(alloc, families, &key, body, change_of(planned))
}

/// Locks a key by the transaction that started then. No where the plan puts no lock.
pub fn prewrite<F: Families>(
    alloc: Global,
    families: &mut F,
    at: At,
    mutation: Mutation,
) -> Result<bool, Fault> {
    let key = Key::new(alloc, &[at.0])?;
    let body = body(alloc, key, at.1, mutation)?;
    let right = locks(alloc, families, &body);
    drop(body);
    right
}

/// Locks a key to put a value of so many bytes, at most 1,000.
pub fn put<F: Families>(
    alloc: Global,
    families: &mut F,
    at: At,
    bytes: usize,
) -> Result<bool, Fault> {
    let Some(bytes) = BYTES.get(..bytes) else {
        return Ok(false);
    };
    let value = Value::new(alloc, bytes)?;
    prewrite(alloc, families, at, Mutation::Put(value))
}

fn settles<F: Families>(alloc: Global, families: &mut F, body: &Commit) -> Result<bool, Fault> {
    let key = EncodedKey::new(alloc, &body.key)?;
    let view = families.view(alloc, &key, body.start, body.commit)?;
    let change = change_of(plan_commit(&view, Ts::ZERO, body));
    families.apply(alloc, &key, change, 1)?;
    Ok(matches!(change, KeyChange::Commit { .. }))
}

/// Commits the transaction that started then. No where the plan does not.
pub fn commit<F: Families>(
    alloc: Global,
    families: &mut F,
    at: At,
    to: u64,
) -> Result<bool, Fault> {
    let key = Key::new(alloc, &[at.0])?;
    let start = Ts::new(at.1);
    let commit = Ts::new(to);
    let body = Commit { key, start, commit };
    let right = settles(alloc, families, &body);
    drop(body);
    right
}

// Whether the plan of an abort rolls back, and whether it changes nothing.
fn aborts<F: Families>(
    alloc: Global,
    families: &mut F,
    body: &BatchRollback,
) -> Result<(bool, bool), Fault> {
    let key = EncodedKey::new(alloc, &body.key)?;
    let view = families.view(alloc, &key, body.start, body.start)?;
    let change = change_of(plan_batch_rollback(&view, Ts::ZERO, body));
    families.apply(alloc, &key, change, 1)?;
    Ok((
        matches!(change, KeyChange::RollBack { .. }),
        matches!(change, KeyChange::Nothing),
    ))
}

// The same of the transaction that started then.
fn abort<F: Families>(alloc: Global, families: &mut F, at: At) -> Result<(bool, bool), Fault> {
    let key = Key::new(alloc, &[at.0])?;
    let start = Ts::new(at.1);
    let body = BatchRollback { key, start };
    let right = aborts(alloc, families, &body);
    drop(body);
    right
}

/// Rolls the transaction back that started then. No where the plan does not.
pub fn roll_back<F: Families>(alloc: Global, families: &mut F, at: At) -> Result<bool, Fault> {
    Ok(abort(alloc, families, at)?.0)
}

/// Whether rolling the transaction back that started then changes nothing.
pub fn stays<F: Families>(alloc: Global, families: &mut F, at: At) -> Result<bool, Fault> {
    Ok(abort(alloc, families, at)?.1)
}

/// Collects at a safe point. Whether no lock started below it, and so many records and long values
/// go.
pub fn collect<F: Families>(
    alloc: Global,
    families: &mut F,
    safe: u64,
    counts: (u64, u64),
) -> Result<bool, Fault> {
    let safe = Ts::new(safe);
    let free = families.first_below(alloc, safe)?.is_none();
    let Dropped { records, values } = families.count_below(alloc, safe)?;
    families.drop_below(safe);
    Ok(free && (records, values) == counts)
}
