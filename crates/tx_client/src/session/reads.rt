//! Reads: of a key, and of a range over several regions.
ghost use Rattle.std.specs.Prelude.{◌≡◌, ◌≤◌, ◌⊎◌, ◌++◌, ◌-◌, ℕ, length, IfOk, IfErr, IfSome, Ok, Err};
ghost use Rattle.tx_types.specs.declared.fault.Fault.TheVariants as fault;
ghost use Rattle.tx_core.specs.Allowed.{Allowed};
ghost use Rattle.tx_transaction.specs.declared.state.Miss.TheVariants as miss;
ghost use Rattle.tx_client.specs.declared.part.ScanPart.TheVariants as part;
ghost use Rattle.tx_transaction.specs.Sessions.{read_of};
ghost use Rattle.tx_journal.specs.Senders.{IsHeld, IsSender};
ghost use Rattle.tx_client.specs.Rooms.{HasRoom, IsScan, HasUpto};
ghost use Rattle.tx_client.specs.Walks.{Sends, look_walk, get_walk, part_walk, look_part, part_by, scan_walk, part_of, low_of, high_of, enough, lesser, greater};

use crate::part::ScanPart;
use crate::session::Session;
use std::alloc::Global;
use std::convert::TryFrom;
use tx_core::{Answer, Body};
use tx_journal::{JournalId, Reply, Request, Sender};
use tx_transaction::Miss;
use tx_types::{Fault, Key, KeyValue, KeyValues};

impl<J: JournalId> Session<J> {
    // Sends a read.
    fn look<S: Sender<Request<J>, Reply<J>>>(
        &mut self,
        body: Body,
        sender: &mut S,
    ) -> Result<Answer, Miss>
        requires way { IsSender J.bounds S.fits S.sends S.keys_between }
        requires held { IsHeld J.bounds body }
        requires allowed { Allowed self.old.seat.events body }
        ensures sends { Sends S.sends J.bounds self.old.seat sender.old (look_walk self.old.state body) (
          self.new.state,
          result,
        ) sender.new self.new.seat }
        ensures upto { (n : ℕ) → IsScan n body → HasUpto n result }
    {
        let (answer, lock) = self.ask(body, sender)?.into_parts();
        self.transaction.after_read(&answer, lock);
        Ok(answer)
    }

    // Reads a key of the store.
    fn read<S: Sender<Request<J>, Reply<J>>>(
        &mut self,
        key: &Key,
        sender: &mut S,
    ) -> Result<Answer, Miss>
        requires way { IsSender J.bounds S.fits S.sends S.keys_between }
        ensures { (result ≡ Err miss.Fault) × (self.new ≡ self.old) × (sender.new ≡ sender.old)
            ⊎ Sends S.sends J.bounds self.old.seat sender.old
            (look_walk self.old.state (read_of self.old.state key.now)) (
              self.new.state,
              result,
            ) sender.new self.new.seat }
    {
        match self.transaction.read(key) {
            Ok(body) => self.look(body, sender),
            Err(_) => Err(Miss::Fault),
        }
    }

    /// Reads a key at the session's start: what the buffer puts or deletes is answered from there.
    /// Memory that is refused to the session itself sends nothing, and leaves all as it was.
    pub fn get<S: Sender<Request<J>, Reply<J>>>(
        &mut self,
        key: &Key,
        sender: &mut S,
    ) -> Result<Answer, Miss>
        requires way { IsSender J.bounds S.fits S.sends S.keys_between }
        ensures { Sends S.sends J.bounds self.old.seat sender.old (get_walk self.old.state key.now) (
          self.new.state,
          result,
        ) sender.new self.new.seat }
    {
        match self.transaction.answer_of(key) {
            Some(result) => result,
            None => self.read(key, sender),
        }
    }
}

// The lesser of two keys.
fn lesser(j: &Key, k: &Key) -> Result<Key, Fault>
    ensures ok { IfOk result (λ key. key ≡ lesser j.now k.now) }
    ensures err { IfErr result (λ e. e ≡ fault.OutOfMemory) }
{
    if k < j { k.clone() } else { j.clone() }
}

// The greater of two keys.
fn greater(j: &Key, k: &Key) -> Result<Key, Fault>
    ensures ok { IfOk result (λ key. key ≡ greater j.now k.now) }
    ensures err { IfErr result (λ e. e ≡ fault.OutOfMemory) }
{
    if j < k { k.clone() } else { j.clone() }
}

// Where the part of a range in the region n begins.
fn low_key(bounds: &[Key], n: usize, from: &Key) -> Result<Key, Fault>
    requires { n ≤ length bounds.now }
    ensures ok { IfOk result (λ key. key ≡ greater from.now (low_of from.now bounds.now n)) }
    ensures err { IfErr result (λ e. e ≡ fault.OutOfMemory) }
{
    if n == 0 {
        return from.clone();
    }
    greater(from, &bounds[n - 1])
}

// Where it ends.
fn high_key(bounds: &[Key], n: usize, to: &Key) -> Result<Key, Fault>
    ensures ok { IfOk result (λ key. key ≡ high_of to.now bounds.now n) }
    ensures err { IfErr result (λ e. e ≡ fault.OutOfMemory) }
{
    if n < bounds.len() {
        return lesser(to, &bounds[n]);
    }
    to.clone()
}

// Whether the rows so far are enough.
fn enough(limit: u32, rows: KeyValues) -> ScanPart
    ensures { result ≡ enough limit rows }
{
    if rows.as_slice().len() < limit as usize {
        ScanPart::More(rows)
    } else {
        ScanPart::Done(Ok(Answer::Rows(rows)))
    }
}

// The rows so far, with room for as many as are left. Where there are none so far none is taken,
// since what is found is then kept as it is.
fn with_room(limit: u32, rows: KeyValues) -> Result<Vec<KeyValue>, Fault>
    ensures ok { IfOk result (λ all. all.items ≡ rows) }
    ensures room { IfOk result (λ all. HasRoom all (limit - length rows)) }
    ensures err { IfErr result (λ e. e ≡ fault.OutOfMemory) }
{
    let left = left(limit, &rows);
    let mut all = rows.into_vec();
    if !all.is_empty() {
        all.reserve_exact(left as usize)?;
    }
    Ok(all)
}

// The rows so far, with what was found after them, for which there is room.
fn joined(mut rows: Vec<KeyValue>, found: KeyValues) -> KeyValues
    requires room { HasRoom rows (length found) }
    ensures { result ≡ rows.items ++ found }
{
    if rows.is_empty() {
        return found;
    }
    let _moved = rows.append(&mut found.into_vec());
    KeyValues::from_vec(rows)
}

// What a part comes to by what its read answered.
fn part_by(limit: u32, rows: Vec<KeyValue>, answered: Result<Answer, Miss>) -> ScanPart
    requires room { HasRoom rows (limit - length rows.items) }
    requires upto { HasUpto (limit - length rows.items) answered }
    ensures { result ≡ part_by limit rows.items answered }
{
    match answered {
        Ok(Answer::Rows(found)) => enough(limit, joined(rows, found)),
        other => ScanPart::Done(other),
    }
}

// The limit less the rows so far.
fn left(limit: u32, rows: &KeyValues) -> u32
    ensures { result ≡ limit - length rows.now }
{
    match u32::try_from(rows.as_slice().len()) {
        Ok(count) => limit.saturating_sub(count),
        Err(_) => 0,
    }
}

impl<J: JournalId> Session<J> {
    // The read of the part of a range that lies in the region n, where it is not empty.
    fn part_of(
        &self,
        alloc: Global,
        bounds: &[Key],
        n: usize,
        from: &Key,
        to: &Key,
        limit: u32,
    ) -> Result<Option<Body>, Fault>
        requires { n ≤ length bounds.now }
        ensures ok { IfOk result (λ body. body ≡ part_of self.now.state
            (greater from.now (low_of from.now bounds.now n)) (high_of to.now bounds.now n) limit) }
        ensures allowed { IfOk result (λ body. IfSome body (λ b. Allowed self.now.seat.events b)) }
        ensures err { IfErr result (λ e. e ≡ fault.OutOfMemory) }
    {
        let low = low_key(bounds, n, from)?;
        let high = high_key(bounds, n, to)?;
        if low < high {
            Ok(Some(self.transaction.scan(alloc, low, high, limit)?))
        } else {
            Ok(None)
        }
    }

    // Takes room for the rows of a part, and sends its read.
    fn look_part<S: Sender<Request<J>, Reply<J>>>(
        &mut self,
        body: Body,
        limit: u32,
        rows: KeyValues,
        sender: &mut S,
    ) -> ScanPart
        requires way { IsSender J.bounds S.fits S.sends S.keys_between }
        requires held { IsHeld J.bounds body }
        requires allowed { Allowed self.old.seat.events body }
        requires left { IsScan (limit - length rows) body }
        ensures { (result ≡ part.Done (Err miss.Fault)) × (self.new ≡ self.old) × (sender.new ≡ sender.old)
            ⊎ Sends S.sends J.bounds self.old.seat sender.old (look_part self.old.state body limit rows)
            (self.new.state, result) sender.new self.new.seat }
    {
        let Ok(rows) = with_room(limit, rows) else {
            return ScanPart::Done(Err(Miss::Fault));
        };
        let answered = self.look(body, sender);
        part_by(limit, rows, answered)
    }

    // Reads the part of a range that lies in the region n.
    fn read_part<S: Sender<Request<J>, Reply<J>>>(
        &mut self,
        alloc: Global,
        n: usize,
        from: &Key,
        to: &Key,
        limit: u32,
        rows: KeyValues,
        sender: &mut S,
    ) -> ScanPart
        requires way { IsSender J.bounds S.fits S.sends S.keys_between }
        requires within { n ≤ length J.bounds }
        ensures { Sends S.sends J.bounds self.old.seat sender.old
            (part_walk self.old.state (greater from.now (low_of from.now J.bounds n)) (high_of to.now J.bounds n) limit
            rows) (self.new.state, result) sender.new self.new.seat }
    {
        let left = left(limit, &rows);
        match self.part_of(alloc, sender.bounds(), n, from, to, left) {
            Err(_) => ScanPart::Done(Err(Miss::Fault)),
            Ok(None) => ScanPart::More(rows),
            Ok(Some(body)) => self.look_part(body, limit, rows, sender),
        }
    }

    /// Reads the first `limit` keys with a value at the session's start, from `from` up to but not
    /// including `to`: the regions' parts in order, each with the limit less the rows so far. The
    /// buffer is not looked at. Before a part is asked for, room is taken for the rows that it may
    /// add to those so far: memory that is refused to the session itself asks no further region.
    pub fn scan<S: Sender<Request<J>, Reply<J>>>(
        &mut self,
        alloc: Global,
        from: &Key,
        to: &Key,
        limit: u32,
        sender: &mut S,
    ) -> Result<Answer, Miss>
        requires way { IsSender J.bounds S.fits S.sends S.keys_between }
        ensures { Sends S.sends J.bounds self.old.seat sender.old
            (scan_walk self.old.state J.bounds from.now to.now limit) (
              self.new.state,
              result,
            ) sender.new self.new.seat }
    {
        let mut rows = KeyValues::new(alloc);
        for n in 0..sender.bounds().len() + 1 {
            match self.read_part(alloc, n, from, to, limit, rows, sender) {
                ScanPart::More(more) => rows = more,
                ScanPart::Done(result) => return result,
            }
        }
        Ok(Answer::Rows(rows))
    }
}
