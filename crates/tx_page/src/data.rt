//! What a page knows of a film beside its lines: sessions, keys, and of each line where its request
//! went, what then stood on the keys that it changed, what it holds, and how far its session was.
use std::alloc::{AllocError, Global};
use tx_cells::KeyVersions;
use tx_core::Body;
use tx_cut::{Row, Sending, Session, Sheet};
use tx_film::{Film, Frame, bounds_in};
use tx_ops::SessionStage;
use tx_plan::{LockHead, RecordHead};
use tx_text::{Broken, put_digits, put_number, put_string};
use tx_types::{Key, LockKind, Mode};

// Appends the name of a member of an object.
fn put_name(out: &mut Vec<u8>, name: &[u8]) -> Result<(), AllocError> {
    if out.last() != Some(&b'{') {
        out.extend_from_slice(b",")?;
    }
    put_string(out, name)?;
    out.extend_from_slice(b":")
}

// Appends a comma, unless a list begins there.
fn put_comma(out: &mut Vec<u8>) -> Result<(), AllocError> {
    if out.last() != Some(&b'[') {
        out.extend_from_slice(b",")?;
    }
    Ok(())
}

// Appends a number of a list.
fn put_place(out: &mut Vec<u8>, place: usize) -> Result<(), AllocError> {
    put_comma(out)?;
    put_digits(out, place as u64)
}

// Appends a number, or that there is none, with a comma before it.
fn put_some(out: &mut Vec<u8>, number: Option<u64>) -> Result<(), AllocError> {
    match number {
        Some(number) => put_number(out, number),
        None => out.extend_from_slice(b",null"),
    }
}

// Appends a list of keys.
fn put_keys(out: &mut Vec<u8>, keys: &[Key]) -> Result<(), AllocError> {
    out.extend_from_slice(b"[")?;
    'keys: for key in keys {
        put_comma(out)?;
        put_string(out, key.as_bytes())?;
    }
    out.extend_from_slice(b"]")
}

// Appends of each key the place of its region.
fn put_regions(out: &mut Vec<u8>, sheet: &Sheet) -> Result<(), AllocError> {
    out.extend_from_slice(b"[")?;
    'keys: for key in &sheet.keys {
        put_place(out, key.region)?;
    }
    out.extend_from_slice(b"]")
}

// The number of the line at a place.
fn number_at(place: usize) -> u64 {
    (place as u64).saturating_add(1)
}

// Appends a session: its name, its start, and the lines by which it began and ended.
fn put_session(out: &mut Vec<u8>, session: &Session) -> Result<(), AllocError> {
    put_comma(out)?;
    out.extend_from_slice(b"[")?;
    put_string(out, session.name.as_bytes())?;
    put_some(out, session.start)?;
    put_number(out, number_at(session.begins))?;
    put_some(out, session.ends.map(number_at))?;
    out.extend_from_slice(b"]")
}

// Appends all sessions.
fn put_sessions(out: &mut Vec<u8>, sheet: &Sheet) -> Result<(), AllocError> {
    out.extend_from_slice(b"[")?;
    'sessions: for session in &sheet.sessions {
        put_session(out, session)?;
    }
    out.extend_from_slice(b"]")
}

// The word of what a lock or a record does.
fn kind_word(kind: LockKind) -> &'static [u8] {
    match kind {
        LockKind::Put => b"put",
        LockKind::Delete => b"delete",
        LockKind::Lock => b"lock",
    }
}

// Appends the lock of a key, as `versions` has it.
fn put_lock(out: &mut Vec<u8>, lock: Option<LockHead>) -> Result<(), AllocError> {
    let Some(lock) = lock else {
        return out.extend_from_slice(b",null");
    };
    out.extend_from_slice(b",[")?;
    put_string(out, kind_word(lock.kind))?;
    put_number(out, lock.start.get())?;
    put_number(out, lock.min.get())?;
    out.extend_from_slice(match lock.mode {
        Mode::TwoPhase => b",\"two-phase\"]",
        Mode::Async => b",\"async\"]",
    })
}

// Appends a write record, as `versions` has it.
fn put_record(out: &mut Vec<u8>, at: u64, head: &RecordHead) -> Result<(), AllocError> {
    put_comma(out)?;
    out.extend_from_slice(b"[")?;
    put_digits(out, at)?;
    match head {
        RecordHead::Commit {
            kind,
            start,
            overlapped_rollback,
        } => {
            out.extend_from_slice(b",")?;
            put_string(out, kind_word(*kind))?;
            put_number(out, start.get())?;
            if *overlapped_rollback {
                out.extend_from_slice(b",\"marked\"")?;
            }
        }
        RecordHead::Rollback => {
            out.extend_from_slice(b",\"rollback\"")?;
            put_number(out, at)?;
        }
    }
    out.extend_from_slice(b"]")
}

// Appends what stands on the key at this place, as `versions` has it but for its values' starts.
fn put_shown(out: &mut Vec<u8>, key: usize, copy: &KeyVersions) -> Result<(), AllocError> {
    put_comma(out)?;
    out.extend_from_slice(b"[")?;
    put_digits(out, key as u64)?;
    put_lock(out, copy.lock)?;
    out.extend_from_slice(b",[")?;
    'records: for record in copy.records.as_slice() {
        put_record(out, record.at.get(), &record.head)?;
    }
    out.extend_from_slice(b"]]")
}

// Appends what then stood on the keys that a line changed.
fn put_changed(out: &mut Vec<u8>, row: &Row, frame: &Frame) -> Result<(), AllocError> {
    if row.changes.is_empty() {
        return Ok(());
    }
    put_name(out, b"keys")?;
    out.extend_from_slice(b"[")?;
    'keys: for shown in &frame.keys {
        if row.changes.iter().any(|change| change.key == shown.key) {
            put_shown(out, shown.key, shown.shown.copy())?;
        }
    }
    out.extend_from_slice(b"]")
}

// The word of a request, as steps have it.
fn request_word(body: &Body) -> &'static [u8] {
    match body {
        Body::Get(_) => b"get",
        Body::Scan(_) => b"scan",
        Body::Prewrite(_) => b"prewrite",
        Body::Commit(_) => b"commit",
        Body::BatchRollback(_) => b"abort",
        Body::TxnHeartBeat(_) => b"heartbeat",
        Body::CheckTxnStatus(_) | Body::CheckSecondaryLocks(_) | Body::ResolveLock(_) => b"resolve",
        Body::RaiseSafe(_) | Body::LocksBelow(_) | Body::Collect(_) => b"gc",
    }
}

// The key of a request: of a scan the first.
fn key_of(body: &Body) -> Option<&Key> {
    match body {
        Body::Get(get) => Some(&get.key),
        Body::Scan(scan) => Some(&scan.asked().from),
        Body::Prewrite(prewrite) => Some(&prewrite.asked().key),
        Body::Commit(commit) => Some(&commit.key),
        Body::BatchRollback(rollback) => Some(&rollback.key),
        Body::TxnHeartBeat(heartbeat) => Some(&heartbeat.key),
        _ => None,
    }
}

// Appends a request that is held: its word and its key.
fn put_held(out: &mut Vec<u8>, frame: &Frame) -> Result<(), AllocError> {
    let Some(body) = &frame.held else {
        return Ok(());
    };
    put_name(out, b"held")?;
    out.extend_from_slice(b"[")?;
    put_string(out, request_word(body))?;
    out.extend_from_slice(b",")?;
    match key_of(body) {
        Some(key) => put_string(out, key.as_bytes())?,
        None => out.extend_from_slice(b"null")?,
    }
    out.extend_from_slice(b"]")
}

// The word of what became of a request.
fn sending_word(sending: Sending) -> &'static [u8] {
    match sending {
        Sending::Plain => b"",
        Sending::Lost => b"lost",
        Sending::ReplyLost => b"reply-lost",
        Sending::Twice => b"twice",
        Sending::Held => b"held",
        Sending::Delivered => b"delivered",
    }
}

// The word of how far a session is.
fn stage_word(stage: SessionStage) -> &'static [u8] {
    match stage {
        SessionStage::Open => b"open",
        SessionStage::Empty => b"empty",
        SessionStage::Locking => b"locking",
        SessionStage::Promised => b"promised",
        SessionStage::Locked => b"locked",
        SessionStage::Drawn => b"drawn",
        SessionStage::Committed => b"committed",
        SessionStage::Aborted => b"aborted",
    }
}

// Appends a member that is a word, where that is not empty.
fn put_word(out: &mut Vec<u8>, name: &[u8], word: &[u8]) -> Result<(), AllocError> {
    if word.is_empty() {
        return Ok(());
    }
    put_name(out, name)?;
    put_string(out, word)
}

// Appends the keys to which a line's requests went.
fn put_targets(out: &mut Vec<u8>, row: &Row) -> Result<(), AllocError> {
    if row.targets.is_empty() {
        return Ok(());
    }
    put_name(out, b"to")?;
    out.extend_from_slice(b"[")?;
    'targets: for target in &row.targets {
        put_place(out, target.key)?;
    }
    out.extend_from_slice(b"]")
}

// Appends what is known of a line: how many of the machine's steps are its own, and the rest.
fn put_line(out: &mut Vec<u8>, row: &Row, frame: &Frame, steps: usize) -> Result<(), AllocError> {
    put_comma(out)?;
    out.extend_from_slice(b"{")?;
    if steps > 0 {
        put_name(out, b"steps")?;
        put_digits(out, steps as u64)?;
    }
    if let Some(session) = row.session {
        put_name(out, b"who")?;
        put_digits(out, session as u64)?;
    }
    put_targets(out, row)?;
    put_changed(out, row, frame)?;
    put_word(out, b"sent", sending_word(row.sending))?;
    put_held(out, frame)?;
    if let Some(stage) = frame.stage {
        put_word(out, b"stage", stage_word(stage))?;
    }
    out.extend_from_slice(b"}")
}

// Appends what is known of all lines.
fn put_lines(out: &mut Vec<u8>, film: &Film, sheet: &Sheet) -> Result<(), AllocError> {
    out.extend_from_slice(b"[")?;
    'lines: for (place, (row, frame)) in sheet.rows.iter().zip(film.frames()).enumerate() {
        put_line(out, row, frame, film.steps(place).len())?;
    }
    out.extend_from_slice(b"]")
}

/// What a page knows of a film beside its lines, as one JSON object.
pub(crate) fn data_of(
    alloc: Global,
    keys: &[Key],
    lines: &[&[u8]],
    film: &Film,
    sheet: &Sheet,
) -> Result<Vec<u8>, Broken> {
    let bounds = match lines.first() {
        Some(line) => bounds_in(alloc, line)?,
        None => Vec::new(alloc),
    };
    let mut out = Vec::new(alloc);
    out.extend_from_slice(b"{")?;
    put_name(&mut out, b"keys")?;
    put_keys(&mut out, keys)?;
    put_name(&mut out, b"region")?;
    put_regions(&mut out, sheet)?;
    put_name(&mut out, b"bounds")?;
    put_keys(&mut out, bounds.as_slice())?;
    put_name(&mut out, b"sessions")?;
    put_sessions(&mut out, sheet)?;
    put_name(&mut out, b"lines")?;
    put_lines(&mut out, film, sheet)?;
    out.extend_from_slice(b"}\n")?;
    Ok(out)
}
