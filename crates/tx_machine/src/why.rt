//! Why the machine does not make a step.
//!
//! It is asked of a step that was refused, and looks at what the step before left, as the step
//! itself does. So it costs about as much as the step, and changes nothing.
ghost use Rattle.std.specs.Prelude.{◌≡◌, ◌≢◌, ◌↔◌, IsTrue, Some, None, IfOk, IfErr, IfSome, IfNone, Contains, option_map};
ghost use Rattle.std.specs.Ordering.{nat_cmp};
ghost use Rattle.std.specs.BTreeMap as tree;
ghost use Rattle.tx_machine.specs.Representation.{ListedOn, Blocks};
ghost use Rattle.tx_machine.specs.Scans.{Differs};
ghost use Rattle.tx_machine.specs.Shown.{versions_of};
ghost use Rattle.tx_machine.specs.Why.{IsSeen, value_of, standing_of, IsOfSet, IsWhy};
ghost use Rattle.tx_machine.specs.declared.machine.TxnStage.{TxnStage};
ghost use Rattle.tx_machine.specs.declared.machine.TxnStage.TheVariants.{Declared};

use crate::commit::{Block, first_block};
use crate::machine::{Machine, TxnStage};
use crate::reason::{SeenValue, Standing, Why};
use crate::scan::{Index, differing, misplaced, value_in};
use crate::sets::repeated;
use crate::step::{ScanRead, Step};
use crate::versions::{Fates, Writer, newest};
use std::alloc::Global;
use tx_types::{Change, Changes, Fate, Fault, Key, Mutation, Ts, Value};

// What a read of the key at this timestamp sees, and whose commit left it.
fn seen_by(index: &Index, fates: &Fates, key: &Key, at: Ts) -> Result<SeenValue, Fault>
    ensures ok { IfOk result (λ seen. IsSeen (ListedOn (versions_of index.now key.now) fates.now) at seen) }
    ensures err { IfErr result (λ e. e ≡ Fault.OutOfMemory) }
{
    let Some(history) = index.get(key) else {
        return Ok(SeenValue::Nothing);
    };
    let Some((commit, version)) = newest(&history.versions, fates, at) else {
        return Ok(SeenValue::Nothing);
    };
    let by = Writer {
        start: version.start,
        commit,
    };
    match &version.mutation {
        Mutation::Put(value) => Ok(SeenValue::Left(value.clone()?, by)),
        Mutation::Insert(inserted) => Ok(SeenValue::Left(inserted.clone()?, by)),
        Mutation::Delete | Mutation::Lock => Ok(SeenValue::Deleted(by)),
    }
}

impl SeenValue {
    /// The value, where there is one.
    pub fn value(&self) -> Option<&Value>
        ensures { option_map (λ v. v.now) result ≡ value_of self.now }
    {
        match self {
            SeenValue::Nothing | SeenValue::Deleted(_) => None,
            SeenValue::Left(value, _) => Some(value),
        }
    }
}

fn copy(value: Option<&Value>) -> Result<Option<Value>, Fault>
    ensures ok { IfOk result (λ copy. copy ≡ option_map (λ v. v.now) value.entry) }
    ensures err { IfErr result (λ e. e ≡ Fault.OutOfMemory) }
{
    match value {
        None => Ok(None),
        Some(value) => Ok(Some(value.clone()?)),
    }
}

// Whether what is seen is what a read claims.
fn is_same(seen: &SeenValue, claims: &Option<Value>) -> bool
    ensures { IsTrue result ↔ (value_of seen.now ≡ claims.now) }
{
    seen.value() == claims.as_ref()
}

// A read of the key that sees something else than it claims.
fn read_reason(key: &Key, at: Ts, claims: Option<&Value>, seen: SeenValue) -> Result<Why, Fault>
    ensures ok { IfOk result (λ why. why ≡ Why.Read key.now at (option_map (λ v. v.now) claims.entry) seen) }
    ensures err { IfErr result (λ e. e ≡ Fault.OutOfMemory) }
{
    let key = key.clone()?;
    let claims = copy(claims)?;
    Ok(Why::Read {
        key,
        at,
        claims,
        seen,
    })
}

// A row of the key that is not in its place.
fn order_reason(key: &Key) -> Result<Why, Fault>
    ensures ok { IfOk result (λ why. why ≡ Why.Order key.now) }
    ensures err { IfErr result (λ e. e ≡ Fault.OutOfMemory) }
{
    let key = key.clone()?;
    Ok(Why::Order { key })
}

// A transaction has to stand so.
fn unless(start: Ts, is: Standing, wanted: Standing) -> Option<Why>
    ensures some { IfSome result (λ why. (why ≡ Why.State start is) × (is ≢ wanted)) }
    ensures none { IfNone result (is ≡ wanted) }
{
    if is == wanted {
        None
    } else {
        Some(Why::State { start, is })
    }
}

// Why a transaction does not declare this set.
fn why_set(alloc: Global, t: Ts, set: &[Change]) -> Result<Option<Why>, Fault>
    ensures ok { IfOk result (λ why. IsOfSet t set.now why) }
    ensures err { IfErr result (λ e. e ≡ Fault.OutOfMemory) }
{
    if set.is_empty() {
        return Ok(Some(Why::Empty { start: t }));
    }
    match repeated(alloc, set)? {
        None => Ok(None),
        Some(key) => Ok(Some(Why::Twice {
            start: t,
            key: key.clone()?,
        })),
    }
}

impl Machine {
    /// Why the machine does not make a step; none where it makes it. It costs about what the step
    /// does. `OutOfMemory` where there is no room for what it tells.
    pub fn why(&self, step: &Step) -> Result<Option<Why>, Fault>
        ensures ok { IfOk result (IsWhy self.now step.now) }
        ensures err { IfErr result (λ e. e ≡ Fault.OutOfMemory) }
    {
        match step {
            Step::Draw(n) => Ok(self.why_draw(*n)),
            Step::Begin(t) => Ok(self.why_begin(*t)),
            Step::Declare(t, set) => self.why_declare(*t, set),
            Step::Commit(t, c) => self.why_commit(*t, *c),
            Step::Abort(t) => Ok(self.why_abort(*t)),
            Step::Read(key, at, found) => self.why_read(key, *at, found),
            Step::Scan(scan) => self.why_scan(scan),
            Step::Answer(t, fate) => Ok(self.why_answer(*t, *fate)),
        }
    }

    // How far the transaction has come.
    fn standing(&self, t: Ts) -> Standing
        ensures { result ≡ standing_of (tree.get nat_cmp self.now.stages t) (tree.get nat_cmp self.now.fates t) }
    {
        match (self.stages.get(&t), self.fates.get(&t)) {
            (None, _) => Standing::Undrawn,
            (Some(TxnStage::Drawn), _) => Standing::Drawn,
            (Some(TxnStage::Begun), None) => Standing::Begun,
            (Some(TxnStage::Declared(_)), None) => Standing::Declared,
            (Some(TxnStage::Begun), Some(fate)) => Standing::Ended(*fate),
            (Some(TxnStage::Declared(_)), Some(ended)) => Standing::Ended(*ended),
        }
    }

    fn why_draw(&self, n: Ts) -> Option<Why>
        ensures { IsWhy self.now (Step.Draw n) result }
    {
        let last = self.last;
        if n <= last {
            return Some(Why::Last { at: n, last });
        }
        None
    }

    fn why_begin(&self, t: Ts) -> Option<Why>
        ensures { IsWhy self.now (Step.Begin t) result }
    {
        unless(t, self.standing(t), Standing::Drawn)
    }

    fn why_answer(&self, t: Ts, fate: Fate) -> Option<Why>
        ensures { IsWhy self.now (Step.Answer t fate) result }
    {
        unless(t, self.standing(t), Standing::Ended(fate))
    }

    fn why_declare(&self, t: Ts, set: &Changes) -> Result<Option<Why>, Fault>
        ensures ok { IfOk result (IsWhy self.now (Step.Declare t set.now)) }
        ensures err { IfErr result (λ e. e ≡ Fault.OutOfMemory) }
    {
        match unless(t, self.standing(t), Standing::Begun) {
            Some(why) => Ok(Some(why)),
            None => why_set(self.alloc, t, set.as_slice()),
        }
    }

    fn why_abort(&self, t: Ts) -> Option<Why>
        ensures { IsWhy self.now (Step.Abort t) result }
    {
        match self.standing(t) {
            Standing::Begun | Standing::Declared => None,
            is => Some(Why::State { start: t, is }),
        }
    }

    fn why_read(&self, key: &Key, at: Ts, found: &Option<Value>) -> Result<Option<Why>, Fault>
        ensures ok { IfOk result (IsWhy self.now (Step.Read key.now at found.now)) }
        ensures err { IfErr result (λ e. e ≡ Fault.OutOfMemory) }
    {
        if at.get() > self.last.get() {
            let last = self.last;
            return Ok(Some(Why::Last { at, last }));
        }
        let seen = seen_by(&self.index, &self.fates, key, at)?;
        if is_same(&seen, found) {
            return Ok(None);
        }
        Ok(Some(read_reason(key, at, found.as_ref(), seen)?))
    }

    fn why_scan(&self, scan: &ScanRead) -> Result<Option<Why>, Fault>
        ensures ok { IfOk result (IsWhy self.now (Step.Scan scan.now)) }
        ensures err { IfErr result (λ e. e ≡ Fault.OutOfMemory) }
    {
        if scan.at.get() > self.last.get() {
            let (at, last) = (scan.at, self.last);
            return Ok(Some(Why::Last { at, last }));
        }
        let rows = scan.rows.as_slice().len();
        if rows > scan.limit as usize {
            return Ok(Some(Why::Count {
                rows: rows as u64,
                limit: scan.limit,
            }));
        }
        if let Some(key) = misplaced(scan) {
            return Ok(Some(order_reason(key)?));
        }
        match differing(&self.index, &self.fates, scan) {
            None => Ok(None),
            Some(key) => Ok(Some(self.seen_otherwise(scan, key)?)),
        }
    }

    // A scan covers the key, and a read sees it otherwise than the rows say.
    fn seen_otherwise(&self, scan: &ScanRead, key: &Key) -> Result<Why, Fault>
        requires { Differs self.now.index self.now.fates scan.now key.now }
        ensures ok { IfOk result (λ why. IsWhy self.now (Step.Scan scan.now) (Some why)) }
        ensures err { IfErr result (λ e. e ≡ Fault.OutOfMemory) }
    {
        let seen = seen_by(&self.index, &self.fates, key, scan.at)?;
        read_reason(key, scan.at, value_in(scan.rows.as_slice(), key), seen)
    }

    // What the transaction has declared, where it is open.
    fn open_set(&self, t: Ts) -> Option<&Changes>
        ensures some { IfSome result (λ set. (tree.get nat_cmp self.now.stages t ≡ Some (Declared set.now))
            × (tree.get nat_cmp self.now.fates t ≡ None)) }
        ensures none { IfNone result (standing_of (tree.get nat_cmp self.now.stages t)
            (tree.get nat_cmp self.now.fates t) ≢ Standing.Declared) }
    {
        if self.fates.get(&t).is_some() {
            return None;
        }
        match self.stages.get(&t) {
            Some(TxnStage::Declared(set)) => Some(set),
            _ => None,
        }
    }

    fn why_commit(&self, t: Ts, c: Ts) -> Result<Option<Why>, Fault>
        ensures ok { IfOk result (IsWhy self.now (Step.Commit t c)) }
        ensures err { IfErr result (λ e. e ≡ Fault.OutOfMemory) }
    {
        match self.open_set(t) {
            None => Ok(Some(Why::State {
                start: t,
                is: self.standing(t),
            })),
            Some(set) => self.why_commit_of(t, c, set.as_slice()),
        }
    }

    // Why the transaction, which is open, does not commit this set.
    fn why_commit_of(&self, t: Ts, c: Ts, set: &[Change]) -> Result<Option<Why>, Fault>
        requires declared { tree.get nat_cmp self.now.stages t ≡ Some (Declared set.now) }
        requires open_yet { tree.get nat_cmp self.now.fates t ≡ None }
        ensures ok { IfOk result (IsWhy self.now (Step.Commit t c)) }
        ensures err { IfErr result (λ e. e ≡ Fault.OutOfMemory) }
    {
        let (start, commit) = (t.get(), c.get());
        if commit <= start {
            return Ok(Some(Why::Early {
                start: t,
                commit: c,
            }));
        }
        if commit - 1 > self.last.get() {
            let last = self.last;
            return Ok(Some(Why::Last { at: c, last }));
        }
        match first_block(&self.index, &self.fates, &self.reads, t, c, set) {
            None => Ok(None),
            Some((change, block)) => Ok(Some(self.blocked(t, c, set, change, block)?)),
        }
    }

    // What forbids that one of the changes is committed.
    fn blocked(
        &self,
        t: Ts,
        c: Ts,
        set: &[Change],
        change: &Change,
        block: Block,
    ) -> Result<Why, Fault>
        requires declared { tree.get nat_cmp self.now.stages t ≡ Some (Declared set.now) }
        requires open_yet { tree.get nat_cmp self.now.fates t ≡ None }
        requires among { Contains set.now change.now }
        requires blocks { Blocks self.now.index self.now.fates self.now.reads t c change.now block }
        ensures ok { IfOk result (λ why. IsWhy self.now (Step.Commit t c) (Some why)) }
        ensures err { IfErr result (λ e. e ≡ Fault.OutOfMemory) }
    {
        let _ = set;
        let key = change.key.clone()?;
        match block {
            Block::Conflict(other) => Ok(Why::Conflict {
                key,
                other,
                start: t,
            }),
            Block::Read(at) => Ok(Why::Unread { key, at, commit: c }),
            Block::Exists => {
                let seen = seen_by(&self.index, &self.fates, &key, t)?;
                Ok(Why::Exists { key, at: t, seen })
            }
        }
    }
}
