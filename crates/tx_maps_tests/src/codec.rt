//! What is spelt how, two digits a byte, and which bytes spell nothing.
use std::alloc::{AllocError, Global};
use std::test::Fail;
use tx_codec::*;
use tx_types::*;

// The byte of the two digits at the front.
fn byte_of(digits: &str) -> Option<u8> {
    u8::from_str_radix(digits, 16).ok()
}

// The bytes of pairs of digits.
fn bytes_of(alloc: Global, text: &str) -> Option<Vec<u8>> {
    let mut bytes = Vec::new(alloc);
    for at in 0..text.len() / 2 {
        bytes.push(byte_of(text.get(2 * at..2 * at + 2)?)?).ok()?;
    }
    Some(bytes)
}

// Whether bytes were made, and are these digits.
fn is_spelt(alloc: Global, made: Result<Vec<u8>, AllocError>, want: &str) -> bool {
    let Ok(made) = made else {
        return false;
    };
    bytes_of(alloc, want).is_some_and(|bytes| bytes.as_slice() == made.as_slice())
}

// Whether what was read is there, or is not; `None` where memory was refused.
fn is_there<T: Drop>(found: Result<Option<T>, Fault>) -> Option<bool> {
    match found {
        Ok(found) => Some(found.is_some()),
        Err(_) => None,
    }
}

fn key_is_spelt(alloc: Global, name: &[u8], want: &str) -> bool {
    match Key::new(alloc, name) {
        Ok(key) => is_spelt(alloc, encode_key(alloc, &key), want),
        Err(_) => false,
    }
}

fn version_is_spelt(alloc: Global, name: &[u8], ts: Ts, want: &str) -> bool {
    match Key::new(alloc, name) {
        Ok(key) => is_spelt(alloc, encode_version(alloc, &key, ts), want),
        Err(_) => false,
    }
}

fn write_is_spelt(alloc: Global, rec: &WriteRec, want: &str) -> bool {
    is_spelt(alloc, encode_write(alloc, rec), want)
}

const KEYS: [(&[u8], &str); 4] = [
    (b"a", "6100000000000000f8"),
    (b"abcdefgh", "6162636465666768ff0000000000000000f7"),
    (b"abcdefghi", "6162636465666768ff6900000000000000f8"),
    (b"\0", "0000000000000000f8"),
];

#[test]
fn keys_are_spelt(rt: HostRuntime) -> Result<(), Fail> {
    for (name, want) in KEYS {
        assert!(rt; key_is_spelt(rt.alloc(), name, want), "{want}");
    }
    Ok(())
}

#[test]
fn versions_are_spelt(rt: HostRuntime) -> Result<(), Fail> {
    let want = "6100000000000000f8fffffffffffffffa";
    assert!(rt; version_is_spelt(rt.alloc(), b"a", Ts::new(5), want));
    Ok(())
}

// Bytes, and whether they spell a key.
const READ_KEYS: [(&str, bool); 11] = [
    ("6100000000000000f8", true),
    ("6162636465666768ff0000000000000000f7", true),
    ("6100000000000001f8", false),
    ("0000000000000000f7", false),
    ("6100000000000000f7", false),
    ("6100000000000000f6", false),
    ("6100000000000000ff", false),
    ("6162636465666768ff", false),
    ("6100000000000000", false),
    ("6100000000000000f800", false),
    ("", false),
];

const READ_VERSIONS: [(&str, bool); 4] = [
    ("6100000000000000f8fffffffffffffffa", true),
    ("", false),
    ("fffffffffffffffa", false),
    ("6100000000000000f8fffffffffffffffa00", false),
];

const READ_WRITES: [(&str, bool); 16] = [
    ("50000000000000000001010178", true),
    ("52000000000000000002", true),
    ("5000000000000000000100", true),
    ("44010000000000000003", true),
    ("4c000000000000000003", true),
    ("", false),
    ("52010000000000000002", false),
    ("5200000000000000000200", false),
    ("53000000000000000002", false),
    ("44020000000000000003", false),
    ("4400000000000003", false),
    ("50000000000000000001", false),
    ("5000000000000000000102", false),
    ("5000000000000000000101", false),
    ("50000000000000000001010278", false),
    ("5000000000000000000101017879", false),
];

const READ_LOCKS: [(&str, bool); 12] = [
    (
        "5001000000000000000100000000000000020000000a0001610001000162010178",
        true,
    ),
    ("4c00000000000000000100000000000000000000000a000161", true),
    (
        "4c00000000000000000100000000000000000000000a00016100",
        false,
    ),
    ("4c00000000000000000100000000000000000000000a0000", false),
    (
        "4c01000000000000000100000000000000000000000a0001610000",
        true,
    ),
    ("4c01000000000000000100000000000000000000000a000161", false),
    (
        "4c01000000000000000100000000000000000000000a0001610001",
        false,
    ),
    (
        "4c01000000000000000100000000000000000000000a0001610100",
        false,
    ),
    ("4c02000000000000000100000000000000000000000a000161", false),
    ("5200000000000000000100000000000000000000000a000161", false),
    ("4c0000000000000000010000000000000000000000000001", false),
    ("", false),
];

// What bytes are read as.
#[derive(Clone, Copy)]
enum Kind {
    Key,
    Version,
    Write,
    Lock,
}

// Whether these digits spell one of its kind.
fn spells(alloc: Global, kind: Kind, text: &str) -> Option<bool> {
    let bytes = bytes_of(alloc, text)?;
    match kind {
        Kind::Key => is_there(decode_key(alloc, &bytes)),
        Kind::Version => is_there(decode_version(alloc, &bytes)),
        Kind::Write => is_there(decode_write(alloc, &bytes)),
        Kind::Lock => is_there(decode_lock(alloc, &bytes)),
    }
}

// The first row that is not read as it says.
fn first_wrong<'a>(alloc: Global, kind: Kind, rows: &[(&'a str, bool)]) -> Option<&'a str> {
    for (text, whole) in rows {
        if spells(alloc, kind, text) != Some(*whole) {
            return Some(*text);
        }
    }
    None
}

#[test]
fn other_bytes_spell_nothing(rt: HostRuntime) -> Result<(), Fail> {
    assert_eq!(rt; first_wrong(rt.alloc(), Kind::Key, &READ_KEYS), None);
    assert_eq!(rt;
        first_wrong(rt.alloc(), Kind::Version, &READ_VERSIONS),
        None
    );
    assert_eq!(rt; first_wrong(rt.alloc(), Kind::Write, &READ_WRITES), None);
    assert_eq!(rt; first_wrong(rt.alloc(), Kind::Lock, &READ_LOCKS), None);
    Ok(())
}

fn commit(mutation: StoredMutation, start: u64, overlapped_rollback: bool) -> WriteRec {
    WriteRec::Commit(CommitRec {
        mutation,
        start: Ts::new(start),
        overlapped_rollback,
    })
}

fn put(alloc: Global) -> Option<StoredMutation> {
    let value = InlineValue::new(alloc, b"x").ok()?;
    Some(StoredMutation::Put(StoredValue::Inline(value)))
}

fn put_is_spelt(alloc: Global, want: &str) -> bool {
    put(alloc).is_some_and(|put| write_is_spelt(alloc, &commit(put, 1, false), want))
}

fn others_are_spelt(alloc: Global) -> bool {
    let elsewhere = commit(StoredMutation::Put(StoredValue::InDefault), 1, false);
    let delete = commit(StoredMutation::Delete, 3, true);
    let lock = commit(StoredMutation::Lock, 3, false);
    let rollback = WriteRec::Rollback(Ts::new(2));
    write_is_spelt(alloc, &elsewhere, "5000000000000000000100")
        && write_is_spelt(alloc, &delete, "44010000000000000003")
        && write_is_spelt(alloc, &lock, "4c000000000000000003")
        && write_is_spelt(alloc, &rollback, "52000000000000000002")
}

#[test]
fn write_records_are_spelt(rt: HostRuntime) -> Result<(), Fail> {
    assert!(rt; put_is_spelt(rt.alloc(), "50000000000000000001010178"));
    assert!(rt; others_are_spelt(rt.alloc()));
    Ok(())
}

// An async lock of the key `a` with the other key `b`.
fn async_lock(alloc: Global) -> Option<LockRec> {
    let mut others = Secondaries::with_capacity(alloc, 1).ok()?;
    others.push(Key::new(alloc, b"b").ok()?).ok()?;
    Some(LockRec {
        mutation: put(alloc)?,
        mode: LockMode::Async(others),
        start: Ts::new(1),
        min: Ts::new(2),
        ttl: 10,
        primary: Key::new(alloc, b"a").ok()?,
    })
}

fn lock_is_spelt(alloc: Global, want: &str) -> bool {
    async_lock(alloc).is_some_and(|lock| is_spelt(alloc, encode_lock(alloc, &lock), want))
}

#[test]
fn lock_records_are_spelt(rt: HostRuntime) -> Result<(), Fail> {
    let want = "5001000000000000000100000000000000020000000a0001610001000162010178";
    assert!(rt; lock_is_spelt(rt.alloc(), want));
    Ok(())
}
