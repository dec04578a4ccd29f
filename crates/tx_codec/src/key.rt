//! Keys and versions as bytes.
ghost use Rattle.std.specs.Prelude.{◌≡◌, ◌≢◌, ◌++◌, ◌∷◌, [], ◌-◌, ◌^◌, ◌<◌, ◌≤◌, List, ℕ, length, take, replicate, IfOk, IfErr, IfSome, OnOk, MatchOption};
ghost use Rattle.tx_codec.specs.declared.key.TheConstants.{GROUP};
ghost use Rattle.tx_types.specs.Lengths.{IsKey};
ghost use Rattle.tx_codec.specs.Keys.{encoded_key, encoded_version, last_group};

use byteorder::{BigEndian, ByteOrder};
use std::alloc::{AllocError, Global};
use tx_types::limits::{MAX_KEY_BYTES, MIN_KEY_BYTES};
use tx_types::{Fault, Key, Ts};

/// The bytes of a key that make a group.
const GROUP: usize = 8;

/// The bytes of a group with its marker.
const ENCODED_GROUP: usize = 9;

/// The marker of a whole group.
const WHOLE: u8 = 255;

/// The marker of a group of pads alone.
const EMPTY: u8 = 247;

/// The bytes of a timestamp.
const TIMESTAMP: usize = 8;

/// The bytes that the encoded key takes.
fn encoded_len(key: &[u8]) -> usize
    requires { length key.now ≤ MAX_KEY_BYTES }
    ensures len { result ≡ length (encoded_key key.now) }
    ensures small { result < 2 ^ 10 }
{
    (key.len() / GROUP + 1) * ENCODED_GROUP
}

/// A group of these bytes, with zeros behind them, and its marker.
fn group_of(part: &[u8], marker: u8) -> [u8; ENCODED_GROUP]
    requires { length part.now ≤ GROUP }
    ensures { result ≡ part.now ++ replicate (GROUP - length part.now) 0 ++ marker ∷ [] }
{
    let mut group = [0; ENCODED_GROUP];
    group[..part.len()].copy_from_slice(part);
    group[GROUP] = marker;
    group
}

/// Adds the encoded key at the end.
fn append_key(out: &mut Vec<u8>, key: &[u8]) -> Result<(), AllocError>
    ensures { OnOk result (out.new.items ≡ out.old.items ++ encoded_key key.now) }
{
    let mut rest = key;
    while rest.len() >= GROUP {
        let (group, after) = rest.split_at(GROUP);
        out.extend_from_slice(&group_of(group, WHOLE))?;
        rest = after;
    }
    let pads = GROUP - rest.len();
    out.extend_from_slice(&group_of(rest, WHOLE - pads as u8))?;
    Ok(())
}

/// What is left of a key, encoded: at most `MAX_KEY_BYTES`, or nothing behind whole groups. An
/// error where there is no room for it.
pub fn encode_rest(alloc: Global, rest: &[u8]) -> Result<Vec<u8>, AllocError>
    requires { length rest.now ≤ MAX_KEY_BYTES }
    ensures { IfOk result (λ bytes. bytes.items ≡ encoded_key rest.now) }
{
    let mut out = Vec::with_capacity(alloc, encoded_len(rest))?;
    append_key(&mut out, rest)?;
    Ok(out)
}

/// The encoded key. An error where there is no room for it.
pub fn encode_key(alloc: Global, key: &Key) -> Result<Vec<u8>, AllocError>
    ensures { IfOk result (λ bytes. bytes.items ≡ encoded_key key.now) }
{
    encode_rest(alloc, key.as_bytes())
}

/// The encoded key and the timestamp's complement. An error where there is no room for it.
pub fn encode_version(alloc: Global, key: &Key, ts: Ts) -> Result<Vec<u8>, AllocError>
    ensures { IfOk result (λ bytes. bytes.items ≡ encoded_version key.now ts) }
{
    let key = key.as_bytes();
    let mut out = Vec::with_capacity(alloc, encoded_len(key) + TIMESTAMP)?;
    append_key(&mut out, key)?;
    out.extend_from_slice(&(!ts.get()).to_be_bytes())?;
    Ok(out)
}

/// The bytes of the key in this last group.
fn last_part(group: &[u8]) -> Option<&[u8]>
    ensures { MatchOption result
        ((part : List ℕ) → length part < 8 → group.now ≢ last_group part)
        (λ part. (length part.now < 8) × (group.now ≡ last_group part.now)) }
{
    let (marker, bytes) = group.split_last()?;
    if bytes.len() != GROUP || *marker < EMPTY || *marker == WHOLE {
        return None;
    }
    let (part, pads) = bytes.split_at((*marker - EMPTY) as usize);
    if pads != &[0; GROUP][..GROUP - part.len()] {
        return None;
    }
    Some(part)
}

/// The length of the key that these bytes spell, which then stands at the front of `key`.
fn read_key(bytes: &[u8], key: &mut [u8]) -> Option<usize>
    requires { length key.old ≡ MAX_KEY_BYTES }
    ensures { MatchOption result
        ((other : List ℕ) → length other ≤ MAX_KEY_BYTES → bytes.now ≢ encoded_key other)
        (λ len. (len ≤ MAX_KEY_BYTES) × (bytes.now ≡ encoded_key (take len key.new))) }
{
    let mut rest = bytes;
    let mut len = 0;
    while rest.len() > ENCODED_GROUP {
        let (group, after) = rest.split_at(ENCODED_GROUP);
        if group[GROUP] != WHOLE || len + GROUP > MAX_KEY_BYTES {
            return None;
        }
        key[len..len + GROUP].copy_from_slice(&group[..GROUP]);
        len += GROUP;
        rest = after;
    }
    let part = last_part(rest)?;
    if part.len() > MAX_KEY_BYTES - len {
        return None;
    }
    key[len..len + part.len()].copy_from_slice(part);
    Some(len + part.len())
}

/// The key that these bytes spell: `None` where no key is spelled so. `OutOfMemory` where there
/// is no room for it.
pub fn decode_key(alloc: Global, bytes: &[u8]) -> Result<Option<Key>, Fault>
    ensures found { IfOk result (λ found. IfSome found (λ key. IsKey key × (bytes.now ≡ encoded_key key))) }
    ensures only { IfOk result (λ found. (key : List ℕ) → IsKey key → bytes.now ≡ encoded_key key → found ≡ Some key) }
    ensures err { IfErr result (λ e. e ≡ Fault.OutOfMemory) }
{
    let mut key = [0; MAX_KEY_BYTES];
    let Some(len) = read_key(bytes, &mut key) else {
        return Ok(None);
    };
    if len < MIN_KEY_BYTES {
        return Ok(None);
    }
    Ok(Some(Key::new(alloc, &key[..len])?))
}

/// The key and the timestamp that these bytes spell: `None` where no version is spelled so.
/// `OutOfMemory` where there is no room for the key.
pub fn decode_version(alloc: Global, bytes: &[u8]) -> Result<Option<(Key, Ts)>, Fault>
    ensures found { IfOk result (λ found. IfSome found (λ v. IsKey v.0 × (bytes.now ≡ encoded_version v.0 v.1))) }
    ensures only { IfOk result (λ found. (key : List ℕ) (ts : ℕ) → IsKey key → ts < 2 ^ 64 →
        bytes.now ≡ encoded_version key ts → found ≡ Some (key, ts)) }
    ensures err { IfErr result (λ e. e ≡ Fault.OutOfMemory) }
{
    if bytes.len() < TIMESTAMP {
        return Ok(None);
    }
    let (key, ts) = bytes.split_at(bytes.len() - TIMESTAMP);
    let Some(key) = decode_key(alloc, key)? else {
        return Ok(None);
    };
    Ok(Some((key, Ts::new(!BigEndian::read_u64(ts)))))
}
