//! Keys that are kept as their bytes: the first group of an encoded key as a number, so that most
//! keys are told apart where they lie, and behind it its marker, one group more, or the groups in
//! memory of their own. Contracts see the key.
ghost use Rattle.std.specs.Int.{w64, to_be_bytes};
ghost use Rattle.std.specs.Prelude.{◌≡◌, ◌++◌, ◌-◌, ◌*◌, ◌^◌, ◌<◌, ◌≤◌, length, replicate, take, ◌+◌, ℕ, List, Some, refl, IfOk, IfErr};
ghost use Rattle.std.specs.Ordering.{nat_cmp, eq_by_cmp, ordering_then};
ghost use Rattle.std.specs.Cmp.{partial_equiv_from_equiv, eq_by_cmp_equiv, po};
ghost use Rattle.std.specs.Cmp.Lexicographic.{slice_cmp, nat_list_cmp_total};
ghost use Rattle.tx_codec.specs.Keys.{IsKey, encoded_key};
ghost use Rattle.tx_spelling.specs.Spelt.{SpellsKey, spelt, marker_of, rest_of, one_key};
ghost use Rattle.tx_spelling.specs.declared.spelling.TheConstants.{GROUP, WHOLE, EMPTY, MAX_ENCODED_REST};

use crate::byte_order::order;
use crate::version::VersionBytes;
use byteorder::{BigEndian, ByteOrder};
use std::alloc::{AllocError, Global};
use std::cmp::Ordering;
use std::marker::Model;
use tx_codec::{decode_key, encode_rest, key_order};
use tx_types::{Fault, Key};

/// The bytes of a key that make a group.
const GROUP: usize = 8;

/// The marker of a whole group.
const WHOLE: u8 = 255;

/// The marker of a group of which nothing is the key's.
const EMPTY: u8 = 247;

/// The bytes of a group with its marker.
pub const ROOM: usize = 9;

/// The most bytes of an encoded key behind its first group: 9 for each 8 bytes of the longest key.
pub const MAX_ENCODED_REST: usize = 576;

// A part of a group, with zeros behind it.
fn padded(part: &[u8]) -> [u8; GROUP]
    requires { length part.now < GROUP }
    ensures { result ≡ part.now ++ replicate (GROUP - length part.now) 0 }
{
    let mut group = [0; GROUP];
    group[..part.len()].copy_from_slice(part);
    group
}

// The group of a key that is shorter than one.
fn group_of(key: &Key) -> [u8; GROUP]
    requires { length key.now < GROUP }
    ensures { result ≡ key.now ++ replicate (GROUP - length key.now) 0 }
{
    key.first_eight()
}

// The number that the bytes of a group spell.
fn number_of(group: &[u8]) -> u64
    requires { length group.now ≡ GROUP }
    ensures { to_be_bytes w64 result ≡ group.now }
{
    BigEndian::read_u64(group)
}

// The marker of a last group, by the bytes in it that are the key's.
fn marker_of_last(part: &[u8]) -> u8
    requires { length part.now < GROUP }
    ensures { result ≡ WHOLE - (GROUP - length part.now) }
{
    WHOLE - (GROUP - part.len()) as u8
}

// How many bytes of a last group are the key's, by its marker.
fn part_len(marker: u8) -> usize
    ensures { (result ≡ marker - EMPTY) × (result ≤ GROUP) }
{
    marker.saturating_sub(EMPTY) as usize
}

// Two groups.
fn joined(first: &[u8], second: &[u8]) -> [u8; 2 * GROUP]
    requires { (length first.now ≡ GROUP) × (length second.now ≡ GROUP) }
    ensures { result ≡ first.now ++ second.now }
{
    let mut bytes = [0; 2 * GROUP];
    bytes[..GROUP].copy_from_slice(first);
    bytes[GROUP..].copy_from_slice(second);
    bytes
}

// The key of these bytes.
fn key_of(alloc: Global, bytes: &[u8]) -> Result<Key, Fault>
    requires { IsKey bytes.now }
    ensures ok { IfOk result (λ key. key ≡ bytes.now) }
    ensures err { IfErr result (λ e. e ≡ Fault.OutOfMemory) }
{
    Key::new(alloc, bytes)
}

// The key of a whole group and a last one.
fn key_of_two(alloc: Global, group: &[u8], last: &[u8], marker: u8) -> Result<Key, Fault>
    requires { (length group.now ≡ GROUP) × (length last.now ≡ GROUP)
        × IsKey (group.now ++ take (marker - EMPTY) last.now) }
    ensures ok { IfOk result (λ key. key ≡ group.now ++ take (marker - EMPTY) last.now) }
    ensures err { IfErr result (λ e. e ≡ Fault.OutOfMemory) }
{
    let bytes = joined(group, last);
    key_of(alloc, &bytes[..GROUP + part_len(marker)])
}

/// What stands behind the first group of an encoded key.
#[derive(Drop)]
enum Behind {
    /// The marker of that group, which is the last.
    Nothing(u8),
    /// One group more: its marker, and its bytes as a number.
    Group(u8, u64),
    /// The groups behind it.
    Groups(Box<Vec<u8>>),
}

impl Behind {
    // The marker of the first group, and the groups behind it.
    fn parts<'a>(&'a self, room: &'a mut [u8; ROOM]) -> (u8, &'a [u8])
        ensures marker { result.0 ≡ marker_of self.now }
        ensures rest { result.1.now ≡ rest_of self.now }
    {
        match self {
            Behind::Nothing(marker) => (*marker, &room[..0]),
            Behind::Group(marker, last) => {
                let [a, b, c, d, e, f, g, h] = last.to_be_bytes();
                *room = [a, b, c, d, e, f, g, h, *marker];
                (WHOLE, &room[..])
            }
            Behind::Groups(rest) => (WHOLE, rest.as_slice()),
        }
    }

    // The same groups, in memory of their own.
    #[inline(never)]
    fn copy_groups(alloc: Global, rest: &[u8]) -> Result<Behind, AllocError>
        ensures marker { IfOk result (λ copy. marker_of copy ≡ WHOLE) }
        ensures rest { IfOk result (λ copy. rest_of copy ≡ rest.now) }
    {
        let mut groups = Vec::with_capacity(alloc, rest.len())?;
        groups.extend_from_slice(rest)?;
        Ok(Behind::Groups(Box::new(alloc, groups)?))
    }

    // The same.
    #[inline(always)]
    fn copy(&self, alloc: Global) -> Result<Behind, AllocError>
        ensures marker { IfOk result (λ copy. marker_of copy ≡ marker_of self.now) }
        ensures rest { IfOk result (λ copy. rest_of copy ≡ rest_of self.now) }
    {
        match self {
            Behind::Nothing(marker) => Ok(Behind::Nothing(*marker)),
            Behind::Group(marker, last) => Ok(Behind::Group(*marker, *last)),
            Behind::Groups(rest) => Behind::copy_groups(alloc, rest.as_slice()),
        }
    }

    // The order of what stands behind equal groups.
    fn order(&self, other: &Behind) -> Ordering
        ensures { result ≡ ordering_then (nat_cmp (marker_of self.now) (marker_of other.now))
            (slice_cmp nat_cmp (rest_of self.now) (rest_of other.now)) }
    {
        match (self, other) {
            (Behind::Nothing(marker), Behind::Nothing(others)) => marker.cmp(others),
            _ => self.order_groups(other),
        }
    }

    // The order of what stands behind equal groups, where not both are nothing.
    #[inline(never)]
    fn order_groups(&self, other: &Behind) -> Ordering
        ensures { result ≡ ordering_then (nat_cmp (marker_of self.now) (marker_of other.now))
            (slice_cmp nat_cmp (rest_of self.now) (rest_of other.now)) }
    {
        let mut room = [0; ROOM];
        let mut others_room = [0; ROOM];
        let (marker, rest) = self.parts(&mut room);
        let (others_marker, others_rest) = other.parts(&mut others_room);
        match marker.cmp(&others_marker) {
            Ordering::Equal => order(rest, others_rest),
            decided => decided,
        }
    }
}

/// A key, as its bytes.
pub struct KeyBytes {
    first: u64,
    behind: Behind,
    ghost key: { (k : List ℕ) × SpellsKey first (marker_of behind) (rest_of behind) k } by { one_key first
        (marker_of behind) (rest_of behind) },
}

impl Model for KeyBytes {
    ghost Value = { List ℕ };

    ghost view = { λ k. k.key.0 };
}

impl Drop for KeyBytes {
    fn drop(self) {
        let Self {
            first: _,
            behind: _,
        } = self;
    }
}

impl KeyBytes {
    /// The bytes of this key.
    #[inline(always)]
    pub fn new(alloc: Global, key: &Key) -> Result<KeyBytes, AllocError>
        ensures { IfOk result (λ bytes. bytes ≡ key.now) }
    {
        if key.as_bytes().len() < GROUP {
            return Ok(KeyBytes::short(key));
        }
        KeyBytes::longer(alloc, key)
    }

    // The bytes of a key that is not shorter than a group.
    #[inline(never)]
    fn longer(alloc: Global, key: &Key) -> Result<KeyBytes, AllocError>
        requires { GROUP ≤ length key.now }
        ensures { IfOk result (λ bytes. bytes ≡ key.now) }
    {
        if key.as_bytes().len() < 2 * GROUP {
            return Ok(KeyBytes::middling(key));
        }
        KeyBytes::long(alloc, key)
    }

    // The bytes of a key that is shorter than a group.
    fn short(key: &Key) -> KeyBytes
        requires { length key.now < GROUP }
        ensures { result ≡ key.now }
    {
        let bytes = key.as_bytes();
        let group = group_of(key);
        KeyBytes {
            first: number_of(&group),
            behind: Behind::Nothing(marker_of_last(bytes)),
        }
    }

    // The bytes of a key that is shorter than two groups, but not than one.
    fn middling(key: &Key) -> KeyBytes
        requires { (GROUP ≤ length key.now) × (length key.now < 2 * GROUP) }
        ensures { result ≡ key.now }
    {
        let (group, after) = key.as_bytes().split_at(GROUP);
        let last = padded(after);
        KeyBytes {
            first: number_of(group),
            behind: Behind::Group(marker_of_last(after), number_of(&last)),
        }
    }

    // The bytes of a key of two groups or more.
    fn long(alloc: Global, key: &Key) -> Result<KeyBytes, AllocError>
        requires { GROUP ≤ length key.now }
        ensures { IfOk result (λ bytes. bytes ≡ key.now) }
    {
        let (group, after) = key.as_bytes().split_at(GROUP);
        let rest = encode_rest(alloc, after)?;
        Ok(KeyBytes {
            first: number_of(group),
            behind: Behind::Groups(Box::new(alloc, rest)?),
        })
    }

    /// The same bytes. Those of a key of fewer than 16 bytes are copied where they stand.
    #[inline(always)]
    pub fn copy(&self, alloc: Global) -> Result<KeyBytes, AllocError>
        ensures { IfOk result (λ bytes. bytes ≡ self.now) }
    {
        let behind = self.behind.copy(alloc)?;
        Ok(KeyBytes {
            first: self.first,
            behind,
        })
    }

    /// The key. One of fewer than 16 bytes is put together where it stands.
    pub fn read(&self, alloc: Global) -> Result<Key, Fault>
        ensures ok { IfOk result (λ key. key ≡ self.now) }
        ensures err { IfErr result (λ e. e ≡ Fault.OutOfMemory) }
    {
        let group = self.first.to_be_bytes();
        match &self.behind {
            Behind::Nothing(marker) => key_of(alloc, &group[..part_len(*marker)]),
            Behind::Group(marker, last) => {
                let behind = last.to_be_bytes();
                key_of_two(alloc, &group, &behind, *marker)
            }
            Behind::Groups(_) => self.read_long(alloc),
        }
    }

    // The key that was spelt, however long it is.
    fn read_long(&self, alloc: Global) -> Result<Key, Fault>
        ensures ok { IfOk result (λ key. key ≡ self.now) }
        ensures err { IfErr result (λ e. e ≡ Fault.OutOfMemory) }
    {
        let mut room = [0; ROOM];
        let (marker, rest) = self.behind.parts(&mut room);
        let mut bytes = Vec::with_capacity(alloc, rest.len().saturating_add(GROUP + 1))?;
        bytes.extend_from_slice(&self.first.to_be_bytes())?;
        bytes.push(marker)?;
        bytes.extend_from_slice(rest)?;
        match decode_key(alloc, bytes.as_slice())? {
            Some(key) => Ok(key),
            None => unreachable!(),
        }
    }

    /// Its first group as a number, that group's marker, and the groups behind it, which are put
    /// into `room` where they are one.
    pub fn parts<'a>(&'a self, room: &'a mut [u8; ROOM]) -> (u64, u8, &'a [u8])
        ensures parts { spelt result.0 result.1 result.2.now ≡ encoded_key self.now }
        ensures within { (result.0 < 2 ^ 64) × (length result.2.now ≤ MAX_ENCODED_REST) }
    {
        let (marker, rest) = self.behind.parts(room);
        (self.first, marker, rest)
    }

    /// Its order to the key of a version.
    pub fn order_to(&self, version: &VersionBytes) -> Ordering
        ensures { result ≡ slice_cmp nat_cmp self.now version.now.0 }
    {
        self.cmp(version.spelt())
    }
}

impl PartialEq for KeyBytes {
    ghost eq = { eq_by_cmp (slice_cmp nat_cmp) };

    ghost laws = { partial_equiv_from_equiv (eq_by_cmp_equiv nat_list_cmp_total) };

    fn eq(&self, other: &KeyBytes) -> bool {
        self.cmp(other) == Ordering::Equal
    }
}

impl Eq for KeyBytes {
    ghost laws = { eq_by_cmp_equiv nat_list_cmp_total };
}

impl PartialOrd for KeyBytes {
    ghost partial_cmp = { λ x y. Some (slice_cmp nat_cmp x y) };

    ghost laws = { po nat_list_cmp_total (λ x y. refl) };

    fn partial_cmp(&self, other: &KeyBytes) -> Option<Ordering> {
        Some(self.cmp(other))
    }
}

impl Ord for KeyBytes {
    ghost cmp = { slice_cmp nat_cmp };

    ghost total = { nat_list_cmp_total };

    ghost matches_partial_cmp = { λ x y. refl };

    ghost matches_eq = { λ x y. refl };

    #[inline(always)]
    fn cmp(&self, other: &KeyBytes) -> Ordering {
        key_order();
        if self.first != other.first {
            return self.first.cmp(&other.first);
        }
        self.behind.order(&other.behind)
    }
}
