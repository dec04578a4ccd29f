//! Why a step is a fault that has its form: its name, or the state of its session.
use crate::line::Member;
use crate::show::shown;
use std::alloc::{AllocError, Global};
use tx_types::limits::MAX_NAME_BYTES;

// Whether a name has the length of one.
fn is_name(name: &str) -> bool {
    !name.is_empty() && name.len() <= MAX_NAME_BYTES
}

// Where a step holds a request, the member that names it.
fn held_name<'a>(members: &[Member<'a>]) -> Option<Member<'a>> {
    match members {
        [.., word, name] if word.as_str() == Some("hold") => Some(*name),
        _ => None,
    }
}

// The first member that has a name's place and not its length.
fn misnamed<'a>(word: &str, members: &[Member<'a>]) -> Option<Member<'a>> {
    let first = *members.first()?;
    if !is_name(first.as_str()?) {
        return Some(first);
    }
    let held = held_name(members)?;
    if word != "deliver" && !is_name(held.as_str()?) {
        return Some(held);
    }
    None
}

/// Why a name is none that the step with this word and these members may have.
pub(crate) fn wrong_name(
    alloc: Global,
    word: &str,
    members: &[Member<'_>],
) -> Result<Option<String>, AllocError> {
    if let Some(name) = misnamed(word, members) {
        let name = shown(alloc, name)?;
        return Ok(Some(format!(in alloc; "{name} is no name (1 to 64 bytes)")?));
    }
    let Some(first) = members.first() else {
        return Ok(None);
    };
    let name = shown(alloc, *first)?;
    let why = match (word, held_name(members)) {
        ("begin" | "transfer", _) => format!(in alloc; "a session {name} is live already")?,
        ("deliver", _) => format!(in alloc; "no request is held under {name}")?,
        (_, None) => format!(in alloc; "no session {name} is live")?,
        (_, Some(held)) => {
            let held = shown(alloc, held)?;
            format!(in alloc;
                "no session {name} is live, or a request is held under {held} already"
            )?
        }
    };
    Ok(Some(why))
}

// What is so of a session that may not make the step with this word.
fn state_against(word: &str) -> Option<&'static str> {
    match word {
        "put" | "insert" | "delete" | "lock" | "declare" => Some(
            "has declared its write set already",
        ),
        "prewrite" => Some("has declared no write set"),
        "draw" => Some(
            "has nothing to draw for: a key is not locked yet, none is locked in two phases, a number stands, or its outcome is known",
        ),
        "commit" => Some("has drawn no commit timestamp, or is aborted"),
        "abort" => Some(
            "has declared no write set, or is committed, or has all keys locked for an async commit",
        ),
        "heartbeat" => Some("has declared no write set, so it has no primary"),
        "resolve" => Some("has met no lock"),
        "finish" => Some(
            "has no outcome yet, since nothing is known of its commit: abort it, or stop it",
        ),
        _ => None,
    }
}

/// Why the state of its session does not allow the step with this word and these members: what is
/// so of the session, where that is known.
pub(crate) fn wrong_state(
    alloc: Global,
    word: &str,
    members: &[Member<'_>],
    known: Option<&str>,
) -> Result<Option<String>, AllocError> {
    let Some(state) = known.or(state_against(word)) else {
        return Ok(None);
    };
    let Some(name) = members.first() else {
        return Ok(None);
    };
    let name = shown(alloc, *name)?;
    Ok(Some(format!(in alloc; "session {name} {state}")?))
}

/// What there are too many of for the step with this word.
pub(crate) fn too_many(alloc: Global, word: &str) -> Result<Option<String>, AllocError> {
    let why = match word {
        "begin" | "transfer" => "256 sessions are live already",
        _ => "1024 requests are held already",
    };
    Ok(Some(why.to_string(alloc)?))
}
