use std::test::Fail;
use tx_types::*;

fn is_key(rt: &HostRuntime, bytes: &[u8]) -> bool {
    match Key::new(rt.alloc(), bytes) {
        Ok(key) => key.as_bytes() == bytes,
        Err(_) => false,
    }
}

#[test]
fn keys_have_1_to_512_bytes(rt: HostRuntime) {
    let long = [7u8; 513];
    for (len, wanted) in [
        (0, false),
        (1, true),
        (22, true),
        (23, true),
        (512, true),
        (513, false),
    ] {
        assert_eq!(rt; is_key(&rt, &long[..len]), wanted, "{len} bytes");
    }
}

fn is_joined(rt: &HostRuntime, front: &[u8], back: &[u8], whole: &[u8]) -> bool {
    match Text::of_two(rt.alloc(), front, back) {
        Ok(text) => text.as_slice() == whole,
        Err(_) => false,
    }
}

#[test]
fn texts_of_two_parts_have_both(rt: HostRuntime) {
    let bytes = b"0123456789abcdefghijklmnopqrstuvwxyz";
    for (at, len) in [(0, 0), (10, 22), (10, 23), (30, 36)] {
        assert!(rt;
            is_joined(&rt, &bytes[..at], &bytes[at..len], &bytes[..len]),
            "{at} of {len} bytes"
        );
    }
}

fn has_a_copy(text: &Text) -> bool {
    text.clone().is_ok()
}

fn is_made_of(own: Vec<u8>, bytes: &[u8]) -> bool {
    match Text::from_vec(own) {
        Ok(text) => text.as_slice() == bytes && has_a_copy(&text),
        Err(_) => false,
    }
}

fn is_made(rt: &HostRuntime, bytes: &[u8]) -> bool {
    match Vec::from_slice(rt.alloc(), bytes) {
        Ok(own) => is_made_of(own, bytes),
        Err(_) => false,
    }
}

#[test]
fn texts_have_the_bytes_of_a_vector(rt: HostRuntime) {
    let long = [7u8; 513];
    for len in [0, 22, 23, 512, 513] {
        assert!(rt; is_made(&rt, &long[..len]), "{len} bytes");
    }
}

// Whether a record keeps a value of so many bytes inline; none where there is no such value.
fn is_kept_inline(rt: &HostRuntime, len: usize) -> Option<bool> {
    let bytes = vec![in rt.alloc(); 7u8; len].ok()?;
    let value = Value::new(rt.alloc(), bytes.as_slice()).ok()?;
    match value.stored().ok()? {
        StoredValue::Inline(_) => Some(true),
        StoredValue::InDefault => Some(false),
    }
}

#[test]
fn values_of_at_most_255_bytes_stand_inline(rt: HostRuntime) {
    for (len, wanted) in [
        (0, Some(true)),
        (255, Some(true)),
        (256, Some(false)),
        (65_536, Some(false)),
        (65_537, None),
    ] {
        assert_eq!(rt; is_kept_inline(&rt, len), wanted, "{len} bytes");
    }
}

fn others(rt: &HostRuntime, other: &[u8]) -> Result<Secondaries, Fault> {
    let mut secondaries = Secondaries::with_capacity(rt.alloc(), 1)?;
    secondaries.push(Key::new(rt.alloc(), other)?)?;
    Ok(secondaries)
}

fn stored(rt: &HostRuntime) -> Result<StoredMutation, Fault> {
    let value = Value::new(rt.alloc(), b"x")?;
    Ok(StoredMutation::Put(value.stored()?))
}

// The async lock of the primary `a`, with another key.
fn lock_on(rt: &HostRuntime, other: &[u8]) -> Result<LockRec, Fault> {
    let primary = Key::new(rt.alloc(), b"a")?;
    let mutation = stored(rt)?;
    Ok(LockRec {
        mutation,
        mode: LockMode::Async(others(rt, other)?),
        start: Ts::new(1),
        min: Ts::new(2),
        ttl: 10,
        primary,
    })
}

fn is_copied(lock: &LockRec) -> bool {
    lock.clone().is_ok()
}

fn lock_is_copied(rt: &HostRuntime) -> bool {
    match lock_on(rt, b"b") {
        Ok(lock) => is_copied(&lock),
        Err(_) => false,
    }
}

#[test]
fn locks_are_copied(rt: HostRuntime) {
    assert!(rt; lock_is_copied(&rt));
}

fn told_is_copied(info: &LockInfo) -> bool {
    info.clone().is_ok() && info.facts().clone().is_ok()
}

fn what_is_told_is_copied(rt: &HostRuntime, lock: &LockRec) -> Result<bool, Fault> {
    let key = Key::new(rt.alloc(), b"k")?;
    let info = lock.info(rt.alloc(), &key)?;
    Ok(told_is_copied(&info))
}

fn told_of_a_lock(rt: &HostRuntime) -> Result<bool, Fault> {
    let lock = lock_on(rt, b"b")?;
    what_is_told_is_copied(rt, &lock)
}

#[test]
fn what_is_told_of_a_lock_is_copied(rt: HostRuntime) {
    assert!(rt; matches!(told_of_a_lock(&rt), Ok(true)));
}

fn record_is_copied(rec: &WriteRec) -> bool {
    rec.clone().is_ok()
}

#[test]
fn write_records_are_copied(rt: HostRuntime) {
    let rec = WriteRec::Commit(CommitRec {
        mutation: StoredMutation::Delete,
        start: Ts::new(1),
        overlapped_rollback: false,
    });
    assert!(rt; record_is_copied(&rec));
}

fn changes_copied(rt: &HostRuntime, name: &[u8]) -> Result<usize, Fault> {
    let mut changes = Changes::new(rt.alloc());
    changes.push(Change {
        key: Key::new(rt.alloc(), name)?,
        mutation: Mutation::Delete,
    })?;
    Ok(changes.clone()?.as_slice().len())
}

#[test]
fn lists_copy(rt: HostRuntime) {
    assert!(rt; matches!(changes_copied(&rt, b"a"), Ok(1)));
}

// The kind of lock that a copy of an insert takes.
fn kind_of_an_insert(rt: &HostRuntime) -> Result<LockKind, Fault> {
    let insert = Mutation::Insert(Value::new(rt.alloc(), b"x")?);
    Ok(insert.clone()?.kind())
}

#[test]
fn inserts_lock_as_puts(rt: HostRuntime) {
    assert!(rt; matches!(kind_of_an_insert(&rt), Ok(LockKind::Put)));
}

fn text_of(rt: &HostRuntime, fault: Fault) -> String {
    match format!(in rt.alloc(); "{fault}") {
        Ok(text) => text,
        Err(_) => String::new(rt.alloc()),
    }
}

fn conflict_text(rt: &HostRuntime, start: u64, commit: u64) -> String {
    let start = Ts::new(start);
    let commit = Ts::new(commit);
    text_of(rt, Fault::WriteConflict { start, commit })
}

// What a request is refused with that meets this lock on this key.
fn lock_text(rt: &HostRuntime, lock: &LockRec, key: &[u8]) -> Result<String, Fault> {
    let key = Key::new(rt.alloc(), key)?;
    let info = lock.info(rt.alloc(), &key)?;
    Ok(text_of(rt, Fault::KeyIsLocked(info)))
}

fn met_text(rt: &HostRuntime, key: &[u8]) -> Result<String, Fault> {
    let lock = lock_on(rt, b"b")?;
    lock_text(rt, &lock, key)
}

#[test]
fn refusals_say_what_to_do(rt: HostRuntime) -> Result<(), Fail> {
    assert_eq!(rt;
        conflict_text(&rt, 2, 3).as_str(),
        "the transaction that started at 2 committed at 3, after this one started: begin again"
    );
    let text = met_text(&rt, b"b\"\n")?;
    assert_eq!(rt;
        text.as_str(),
        "key \"b\\\"\\x0a\" is locked by the transaction that started at 1 with the primary \"a\": resolve the lock, or try again when it is gone"
    );
    assert_eq!(rt;
        text_of(&rt, Fault::AlreadyExists).as_str(),
        "the key that is to be inserted has a value"
    );
    Ok(())
}

fn seat_text(rt: &HostRuntime) -> Result<String, Fault> {
    Ok(format!(in rt.alloc(); "{} in {}", SeatNo::new(3), RegionNo::new(1))?)
}

#[test]
fn seats_and_regions_are_shown_by_number(rt: HostRuntime) -> Result<(), Fail> {
    let text = seat_text(&rt)?;
    assert_eq!(rt; text.as_str(), "3 in 1");
    Ok(())
}
