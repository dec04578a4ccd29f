//! The queues of the slots, linked through the commands: each slot knows the last command in it,
//! and each command knows those that stand directly behind it in one of its slots, and how many it
//! stands directly behind.
//!
//! A command is granted exactly where it stands directly behind none: an earlier one that shares a
//! slot with it has, at the end of the way through that slot's queue, one directly before it. So
//! the release of a command can grant only those directly behind it, and they stand in its list in
//! asking order, since each was added as it was asked.
//!
//! At most one command stands directly behind another in each of its slots. So a command takes,
//! before it joins, the room for one number a slot in its own list, and no later one needs memory
//! of it: a release hands out that list, and takes none.
//!
//! A call looks at the commands directly before or behind one in its slots, each by its number, and
//! never at the others that wait. The positions of those that left are dropped once they are more
//! than those that are taken, which costs each command that left a constant share. So `add` and
//! `remove` cost O(slots of the command), amortised.
ghost use Rattle.std.specs.Prelude.{◌≡◌, ℕ, ◌+◌, ◌-◌, ◌<◌, ◌≤◌, ◌++◌, ◌∷◌, [], ◌&&◌, true, false, IsTrue, IfOk, IfErr, OnErr, map, cond, length, Option, None, Some, slice_index_or, nat_eq};
ghost use Rattle.std.specs.Option.{option_map, is_some};
ghost use Rattle.std.specs.List.{list_any, All, filter};
ghost use Rattle.tx_latch.specs.Asked.{contains, cids, is_asked, is_granted, newly_granted, without};
ghost use Rattle.tx_latch.specs.Queues.{Joinable, BetweenCalls, HasRoom, links, asked_of, position_of, last_of, room_at, at_position, link_at, followed, lowered, adds, joined, count_links, lowered_in, is_number, Placed, after_slot, adds_slot, replaced};

mod positions;

use crate::cid::Cid;
use crate::slot::Slot;
use positions::{cid_in, follow, is_cid, is_first, know_small, lower};
use smallvec::SmallVec;
use std::alloc::Global;
use std::collections::HashMap;
use tx_types::Fault;
use tx_types::limits::LATCH_SLOTS;

/// How many slots of a command stand with it; more take memory of their own.
const FEW_SLOTS: usize = 16;

/// A command that stands in the list.
#[derive(Debug, Drop)]
pub struct QueueEntry {
    pub cid: Cid,
    pub slots: SmallVec<Slot, FEW_SLOTS>,
    /// How many commands it stands directly behind in one of its slots.
    pub ahead: usize,
    /// The commands that stand directly behind it in one of its slots, in asking order.
    pub behind: Vec<Cid>,
}

/// The commands that were asked, and the queues of the slots.
#[derive(Debug, Drop)]
pub struct Queues {
    /// The commands by position, in asking order. A position is empty once its command has left.
    pub asked: Vec<Option<QueueEntry>>,
    /// The position of each command, by its number.
    pub positions: HashMap<u64, usize>,
    /// The last command in each slot.
    pub last: [Option<Cid>; LATCH_SLOTS],
}

impl Queues {
    /// No command.
    pub fn new(alloc: Global) -> Queues
        ensures kept { BetweenCalls result }
        ensures empty { asked_of result ≡ [] }
    {
        Queues {
            asked: Vec::new(alloc),
            positions: HashMap::new(alloc),
            last: [None; LATCH_SLOTS],
        }
    }

    /// What it takes memory of.
    pub fn allocator(&self) -> Global {
        *self.asked.allocator()
    }

    /// Whether no command stands in the list, as far as no position is kept of one that left.
    pub fn is_empty(&self) -> bool
        ensures { IsTrue result → asked_of self.now ≡ [] }
    {
        self.asked.is_empty()
    }

    /// Whether a command of this number stands in the list.
    pub fn is_asked(&self, cid: Cid) -> bool
        requires { BetweenCalls self.now }
        ensures { result ≡ is_asked (asked_of self.now) cid }
    {
        self.positions.contains_key(&cid.get())
    }

    /// Whether a command of this number is granted.
    pub fn is_granted(&self, cid: Cid) -> bool
        requires { BetweenCalls self.now }
        ensures { result ≡ is_granted (asked_of self.now) cid }
    {
        match self.positions.get(&cid.get()).copied() {
            Some(position) if position < self.asked.len() => is_first(&self.asked[position]),
            _ => false,
        }
    }

    /// Puts a command directly behind another, unless it was put there just now.
    /// Says whether it did.
    #[inline(always)]
    fn queue_behind(&mut self, before: Cid, cid: Cid) -> bool
        requires { (i : ℕ) → position_of self.old before ≡ Some i
            → HasRoom cid (slice_index_or (links self.old.asked.items) i None) (room_at self.old.asked.items i) }
        ensures followed { links self.new.asked.items
            ≡ at_position (position_of self.old before) (followed cid) (links self.old.asked.items) }
        ensures told { result ≡ adds cid (link_at (position_of self.old before) (links self.old.asked.items)) }
        ensures positions { (c : ℕ) → position_of self.new c ≡ position_of self.old c }
        ensures last { self.new.last ≡ self.old.last }
        ensures room { (i : ℕ) → room_at self.old.asked.items i ≤ room_at self.new.asked.items i }
    {
        match self.positions.get(&before.get()).copied() {
            Some(position) if position < self.asked.len() => follow(&mut self.asked[position], cid),
            _ => false,
        }
    }

    /// The last command in a slot.
    fn last(&self, slot: Slot) -> Option<Cid>
        ensures value { result ≡ last_of self.now slot }
        ensures small { slot < LATCH_SLOTS }
    {
        self.last[usize::from(slot.get())]
    }

    /// Makes a command the last in a slot.
    fn set_last(&mut self, slot: Slot, cid: Cid)
        ensures last { (s : ℕ) → last_of self.new s ≡ cond (nat_eq s slot) (Some cid) (last_of self.old s) }
        ensures asked { self.new.asked ≡ self.old.asked }
        ensures positions { self.new.positions ≡ self.old.positions }
    {
        self.last[usize::from(slot.get())] = Some(cid);
    }

    /// Puts a command at the end of the queue of a slot. Says whether it then stands directly
    /// behind one more.
    #[inline(always)]
    fn join_slot(&mut self, slot: Slot, cid: Cid) -> bool
        requires { (b i : ℕ) → last_of self.old slot ≡ Some b → position_of self.old b ≡ Some i
            → HasRoom cid (slice_index_or (links self.old.asked.items) i None) (room_at self.old.asked.items i) }
        ensures links { links self.new.asked.items
            ≡ after_slot (last_of self.old slot) (position_of self.old) cid (links self.old.asked.items) }
        ensures told { result ≡ adds_slot (last_of self.old slot) (position_of self.old) cid
            (links self.old.asked.items) }
        ensures last { (s : ℕ) → last_of self.new s ≡ cond (nat_eq s slot) (Some cid) (last_of self.old s) }
        ensures positions { (c : ℕ) → position_of self.new c ≡ position_of self.old c }
        ensures room { (i : ℕ) → room_at self.old.asked.items i ≤ room_at self.new.asked.items i }
    {
        let joined = match self.last(slot) {
            Some(before) => self.queue_behind(before, cid),
            None => false,
        };
        self.set_last(slot, cid);
        joined
    }

    /// Puts a command at the end of the queue of each of its slots. Says how many it then stands
    /// directly behind.
    #[inline(always)]
    fn join(&mut self, cid: Cid, slots: &[Slot]) -> usize
        requires joinable { Joinable self.old }
        requires absent { is_asked (asked_of self.old) cid ≡ false }
        requires small { All (λ s. s < LATCH_SLOTS) slots.now }
        ensures joined { links self.new.asked.items
            ≡ map (option_map (joined cid (last_of self.old) slots.now)) (links self.old.asked.items) }
        ensures ahead { result ≡ count_links (λ l. list_any (λ s. is_number l.cid (last_of self.old s)) slots.now)
            (links self.old.asked.items) }
        ensures last { (s : ℕ) → last_of self.new s ≡ cond (contains s slots.now) (Some cid) (last_of self.old s) }
        ensures positions { (c : ℕ) → position_of self.new c ≡ position_of self.old c }
        ensures room { (i : ℕ) → room_at self.old.asked.items i ≤ room_at self.new.asked.items i }
    {
        let mut ahead: usize = 0;
        for slot in slots {
            ahead += usize::from(self.join_slot(*slot, cid));
        }
        ahead
    }

    /// Adds a command at the end of the list, and says whether it is granted.
    #[inline(always)]
    pub fn add(&mut self, cid: Cid, slots: &[Slot]) -> Result<bool, Fault>
        requires kept { BetweenCalls self.old }
        requires absent { is_asked (asked_of self.old) cid ≡ false }
        ensures kept { BetweenCalls self.new }
        ensures ok { IfOk result (λ now. asked_of self.new ≡ asked_of self.old ++ record {
          cid = cid;
          slots = slots.now;
        } ∷ []) }
        ensures granted { IfOk result (λ now. now ≡ is_granted (asked_of self.new) cid) }
        ensures same { OnErr result (asked_of self.new ≡ asked_of self.old) }
        ensures err { IfErr result (λ e. e ≡ Fault.OutOfMemory) }
    {
        let alloc = *self.asked.allocator();
        let own = SmallVec::from_slice(alloc, slots)?;
        let behind = Vec::with_capacity(alloc, slots.len())?;
        let position = self.asked.len();
        self.asked.push(None)?;
        self.positions.insert(cid.get(), position)?;
        know_small(slots);
        let ahead = self.join(cid, slots);
        self.asked[position] = Some(QueueEntry {
            cid,
            slots: own,
            ahead,
            behind,
        });
        Ok(ahead == 0)
    }

    /// One stands less before the command of this number.
    fn lower(&mut self, cid: Cid)
        ensures lowered { links self.new.asked.items
            ≡ at_position (position_of self.old cid) lowered (links self.old.asked.items) }
        ensures positions { (c : ℕ) → position_of self.new c ≡ position_of self.old c }
        ensures last { self.new.last ≡ self.old.last }
        ensures room { (i : ℕ) → room_at self.old.asked.items i ≤ room_at self.new.asked.items i }
    {
        if let Some(position) = self.positions.get(&cid.get()).copied()
            && position < self.asked.len()
        {
            lower(&mut self.asked[position]);
        }
    }

    /// One stands less before each of these commands.
    fn lower_all(&mut self, cids: &[Cid])
        requires { Placed (links self.old.asked.items) (position_of self.old) }
        ensures lowered { links self.new.asked.items
            ≡ map (option_map (lowered_in cids.now)) (links self.old.asked.items) }
        ensures positions { (c : ℕ) → position_of self.new c ≡ position_of self.old c }
        ensures last { self.new.last ≡ self.old.last }
        ensures room { (i : ℕ) → room_at self.old.asked.items i ≤ room_at self.new.asked.items i }
    {
        for cid in cids {
            self.lower(*cid);
        }
    }

    /// Frees those of these slots in which a command is the last.
    fn free(&mut self, cid: Cid, slots: &[Slot])
        ensures last { (s : ℕ) → s < LATCH_SLOTS → last_of self.new s
            ≡ cond (contains s slots.now && is_number cid (last_of self.old s)) None (last_of self.old s) }
        ensures asked { self.new.asked ≡ self.old.asked }
        ensures positions { self.new.positions ≡ self.old.positions }
    {
        for slot in slots {
            let number = usize::from(slot.get());
            if is_cid(self.last[number], cid) {
                self.last[number] = None;
            }
        }
    }

    /// Takes a granted command out of the list, and gives those that stood directly behind it.
    fn take_out(&mut self, cid: Cid) -> Vec<Cid>
        requires kept { BetweenCalls self.old }
        requires granted { is_granted (asked_of self.old) cid ≡ true }
        ensures kept { BetweenCalls self.new }
        ensures left { asked_of self.new ≡ without cid (asked_of self.old) }
        ensures freed { filter (is_granted (asked_of self.new)) result.items
            ≡ newly_granted (asked_of self.old) (asked_of self.new) }
    {
        let Some(position) = self.positions.remove(&cid.get()) else {
            unreachable!()
        };
        let Some(entry) = self.asked[position].take() else {
            unreachable!()
        };
        self.free(cid, entry.slots.as_slice());
        self.lower_all(entry.behind.as_slice());
        entry.behind
    }

    /// Takes a granted command out of the list. Gives those that become granted by it,
    /// in asking order.
    pub fn remove(&mut self, cid: Cid) -> Vec<Cid>
        requires kept { BetweenCalls self.old }
        requires granted { is_granted (asked_of self.old) cid ≡ true }
        ensures kept { BetweenCalls self.new }
        ensures left { asked_of self.new ≡ without cid (asked_of self.old) }
        ensures freed { result.items ≡ newly_granted (asked_of self.old) (asked_of self.new) }
    {
        let mut freed = self.take_out(cid);
        self.compact_when_sparse();
        freed.retain(|next| self.is_granted(*next));
        freed
    }

    /// Drops the empty positions where they are more than the others, or nothing else is there: as
    /// many commands have left since the last time, so that each leaves for a constant cost.
    fn compact_when_sparse(&mut self)
        requires { BetweenCalls self.old }
        ensures kept { BetweenCalls self.new }
        ensures same { asked_of self.new ≡ asked_of self.old }
    {
        if self.asked.len() / 2 > self.positions.len() || self.positions.is_empty() {
            self.compact();
        }
    }

    /// Drops the empty positions.
    fn compact(&mut self)
        requires { BetweenCalls self.old }
        ensures kept { BetweenCalls self.new }
        ensures same { asked_of self.new ≡ asked_of self.old }
    {
        self.asked.retain(|position| position.is_some());
        self.number_all();
    }

    /// Gives each command the position at which it stands.
    fn number_all(&mut self)
        ensures asked { self.new.asked ≡ self.old.asked }
        ensures last { self.new.last ≡ self.old.last }
        ensures placed { (c : ℕ) → position_of self.new c
            ≡ replaced (links self.old.asked.items) 0 c (position_of self.old c) }
    {
        for position in 0..self.asked.len() {
            self.number_one(position);
        }
    }

    /// Gives the command at a position that position.
    fn number_one(&mut self, position: usize)
        requires { position < length self.old.asked.items }
        ensures asked { self.new.asked ≡ self.old.asked }
        ensures last { self.new.last ≡ self.old.last }
        ensures placed { (c : ℕ) → position_of self.new c
            ≡ replaced (slice_index_or (links self.old.asked.items) position None
            ∷ []) position c (position_of self.old c) }
    {
        if let Some(cid) = cid_in(&self.asked[position]) {
            self.set_position(cid, position);
        }
    }

    /// Gives a number another position, where it has one.
    fn set_position(&mut self, cid: Cid, position: usize)
        ensures asked { self.new.asked ≡ self.old.asked }
        ensures last { self.new.last ≡ self.old.last }
        ensures positions { (c : ℕ) → position_of self.new c
            ≡ cond (nat_eq cid c && is_some (position_of self.old c)) (Some position) (position_of self.old c) }
    {
        if let Some(found) = self.positions.get_mut(&cid.get()) {
            *found = position;
        }
    }
}
