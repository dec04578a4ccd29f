//! Tuples against the bytes of their keys, their order, and what is read of keys.
use std::alloc::Global;
use std::test::Fail;
use tx_tuple::Part::{Bytes, Signed, Text, Unsigned};
use tx_tuple::{OwnedPart, Part, pack, unpack};
use tx_types::{Fault, Key};

// The byte of the two digits at the front.
fn byte_of(digits: &str) -> Option<u8> {
    u8::from_str_radix(digits, 16).ok()
}

// The bytes of pairs of digits.
fn bytes_of(alloc: Global, text: &str) -> Option<Vec<u8>> {
    let mut bytes = Vec::new(alloc);
    for at in 0..text.len() / 2 {
        bytes.push(byte_of(text.get(2 * at..2 * at + 2)?)?).ok()?;
    }
    Some(bytes)
}

// Tuples, and the bytes of their keys, two digits a byte.
const ROWS: [(&[Part<'static>], &str); 12] = [
    (&[Bytes(b"")], "010001"),
    (&[Bytes(b"a\0b")], "016100ff620001"),
    (&[Bytes(b"\0\xff\x01")], "0100ffff010001"),
    (&[Text("")], "020001"),
    (&[Text("no \u{e9}")], "026e6f20c3a90001"),
    (&[Signed(0)], "038000000000000000"),
    (&[Signed(-1)], "037fffffffffffffff"),
    (&[Signed(i64::MIN)], "030000000000000000"),
    (&[Signed(i64::MAX)], "03ffffffffffffffff"),
    (&[Unsigned(0x0102_0304_0506_0708)], "040102030405060708"),
    (&[Unsigned(u64::MAX)], "04ffffffffffffffff"),
    (
        &[Text("job"), Unsigned(7), Bytes(b"")],
        "026a6f620001040000000000000007010001",
    ),
];

// Whether the key of a tuple has these bytes.
fn is_packed(alloc: Global, parts: &[Part<'_>], want: &str) -> bool {
    let (Ok(key), Some(bytes)) = (pack(alloc, parts), bytes_of(alloc, want)) else {
        return false;
    };
    key.as_bytes() == bytes.as_slice()
}

#[test]
fn tuples_are_packed(rt: HostRuntime) {
    for (parts, want) in ROWS {
        assert!(rt; is_packed(rt.alloc(), parts, want), "{want}");
    }
}

// Tuples, as they are ordered.
const RISING: [&[Part<'static>]; 47] = [
    &[Bytes(b"")],
    &[Bytes(b""), Bytes(b"")],
    &[Bytes(b""), Unsigned(0)],
    &[Bytes(b"\0")],
    &[Bytes(b"\0"), Text("")],
    &[Bytes(b"\0\0")],
    &[Bytes(b"\0\x01")],
    &[Bytes(b"\x01")],
    &[Bytes(b"a")],
    &[Bytes(b"a"), Signed(-1)],
    &[Bytes(b"a\0")],
    &[Bytes(b"a\0b")],
    &[Bytes(b"ab")],
    &[Bytes(b"b")],
    &[Bytes(b"\xfe\xff")],
    &[Bytes(b"\xff")],
    &[Bytes(b"\xff\0")],
    &[Bytes(b"\xff\xff")],
    &[Text("")],
    &[Text(""), Text("")],
    &[Text("\0")],
    &[Text("a")],
    &[Text("a"), Text("b")],
    &[Text("a"), Signed(i64::MIN)],
    &[Text("a"), Signed(-1), Text("x")],
    &[Text("a"), Signed(0)],
    &[Text("a"), Unsigned(0)],
    &[Text("a"), Unsigned(u64::MAX)],
    &[Text("ab")],
    &[Text("z")],
    &[Text("\u{e9}")],
    &[Text("\u{10348}")],
    &[Signed(i64::MIN)],
    &[Signed(i64::MIN), Bytes(b"")],
    &[Signed(-256)],
    &[Signed(-255)],
    &[Signed(-1)],
    &[Signed(0)],
    &[Signed(1)],
    &[Signed(256)],
    &[Signed(i64::MAX)],
    &[Unsigned(0)],
    &[Unsigned(255)],
    &[Unsigned(256)],
    &[Unsigned(1 << 63)],
    &[Unsigned(u64::MAX)],
    &[Unsigned(u64::MAX), Unsigned(0)],
];

// The keys of the tuples.
fn keys(alloc: Global) -> Result<Vec<Key>, Fault> {
    let mut keys = Vec::new(alloc);
    for parts in RISING {
        keys.push(pack(alloc, parts)?)?;
    }
    Ok(keys)
}

// The pairs of two of these that are not ordered as their places are.
fn wrong_pairs(keys: &[Key]) -> usize {
    keys.iter()
        .enumerate()
        .map(|(i, a)| {
            keys.iter()
                .enumerate()
                .filter(|(j, b)| a.cmp(*b) != i.cmp(j))
                .count()
        })
        .fold(0, usize::saturating_add)
}

#[test]
fn keys_are_ordered_as_tuples(rt: HostRuntime) {
    let Ok(keys) = keys(rt.alloc()) else {
        panic!(rt; "memory was refused");
    };
    assert_eq!(rt; keys.len(), 47);
    assert_eq!(rt; wrong_pairs(&keys), 0);
}

// Whether the key of a tuple is read as its parts.
fn is_read(alloc: Global, parts: &[Part<'_>]) -> bool {
    let Ok(key) = pack(alloc, parts) else {
        return false;
    };
    let Ok(Some(read)) = unpack(alloc, &key) else {
        return false;
    };
    read.len() == parts.len() && read.iter().zip(parts).all(|(a, b)| a.as_part() == *b)
}

#[test]
fn tuples_are_read(rt: HostRuntime) {
    for parts in RISING {
        assert!(rt; is_read(rt.alloc(), parts), "{parts:?}");
    }
    for (parts, want) in ROWS {
        assert!(rt; is_read(rt.alloc(), parts), "{want}");
    }
}

// Bytes that are no tuple's.
const OTHERS: [&str; 14] = [
    "00",
    "05",
    "01",
    "0161",
    "016100",
    "01610000",
    "01610002",
    "0100ff",
    "02ff0001",
    "02c30001",
    "0380000000000000",
    "0400000000000000",
    "04000000000000000000",
    "01000161",
];

// Whether a key of these bytes is read as no tuple.
fn is_none(alloc: Global, text: &str) -> bool {
    let Some(bytes) = bytes_of(alloc, text) else {
        return false;
    };
    let Ok(key) = Key::new(alloc, &bytes) else {
        return false;
    };
    matches!(unpack(alloc, &key), Ok(None))
}

#[test]
fn other_keys_are_no_tuples(rt: HostRuntime) {
    for text in OTHERS {
        assert!(rt; is_none(rt.alloc(), text), "{text}");
    }
}

// Whether a tuple is refused for the length of its key.
fn is_long(alloc: Global, parts: &[Part<'_>]) -> bool {
    matches!(pack(alloc, parts), Err(Fault::KeyLength))
}

#[test]
fn keys_have_a_length(rt: HostRuntime) {
    let bytes = [7; 1_000];
    assert!(rt; is_long(rt.alloc(), &[]));
    assert!(rt; is_read(rt.alloc(), &[Bytes(&bytes[..509])]));
    assert!(rt; is_long(rt.alloc(), &[Bytes(&bytes[..510])]));
    assert!(rt; is_long(rt.alloc(), &[Bytes(&[0; 255])]));
    assert!(rt; is_read(rt.alloc(), &[Unsigned(1), Bytes(&bytes[..500])]));
    assert!(rt; is_long(rt.alloc(), &[Unsigned(1), Bytes(&bytes[..501])]));
}

#[test]
fn parts_are_shown(rt: HostRuntime) -> Result<(), Fail> {
    let shown = format!(in rt.alloc(); "{:?}", OwnedPart::Unsigned(7))?;
    assert_eq!(rt; shown.as_str(), "Unsigned(7)");
    Ok(())
}
