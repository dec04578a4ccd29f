//! The members that each step has, for who is told what is wrong with a line, or types one.
use crate::input::InputKind;
use std::alloc::{AllocError, Global};

/// What a member may be.
#[derive(Clone, Copy, Debug, PartialEq, Eq)]
pub(crate) enum Kind {
    /// Names, keys and values of a script: their lengths are looked at later.
    Session,
    Request,
    Key,
    Value,
    /// A key of a trace.
    SizedKey,
    Stamp,
    Ttl,
    Ticks,
    Limit,
    Amount,
    Mode,
    /// A value, or null.
    Read,
    Fate,
    Bounds,
    Changes,
    Rows,
}

/// The members of a step, and what may follow them.
#[derive(Clone, Copy, Debug)]
pub(crate) struct Form {
    pub members: &'static [Kind],
    pub more: More,
}

/// What may follow the members of a step.
#[derive(Clone, Copy, Debug, PartialEq, Eq)]
pub(crate) enum More {
    Nothing,
    Delivery,
    /// After the mode `"async"`, the greatest commit timestamp.
    MaxCommit,
    /// After the fate `"committed"`, its timestamp.
    At,
}

// Members that nothing may follow.
fn just(members: &'static [Kind]) -> Option<Form> {
    Some(Form {
        members,
        more: More::Nothing,
    })
}

// Members that a delivery may follow.
fn sent(members: &'static [Kind]) -> Option<Form> {
    Some(Form {
        members,
        more: More::Delivery,
    })
}

// What a session does by itself.
fn action_form(word: &str) -> Option<Form> {
    match word {
        "begin" | "draw" | "finish" | "stop" => just(&[Kind::Session]),
        "put" | "insert" => just(&[Kind::Session, Kind::Key, Kind::Value]),
        "delete" | "lock" => just(&[Kind::Session, Kind::Key]),
        "resolve" => just(&[Kind::Session, Kind::Stamp]),
        "declare" => Some(Form {
            members: &[Kind::Session, Kind::Mode, Kind::Ttl],
            more: More::MaxCommit,
        }),
        _ => None,
    }
}

// What a session sends.
fn request_form(word: &str) -> Option<Form> {
    match word {
        "get" => sent(&[Kind::Session, Kind::Key]),
        "scan" => sent(&[Kind::Session, Kind::Key, Kind::Key, Kind::Limit]),
        "prewrite" | "commit" | "abort" => sent(&[Kind::Session]),
        "heartbeat" => sent(&[Kind::Session, Kind::Ttl]),
        _ => None,
    }
}

// Steps of scripts in one thread that are of no session.
fn world_form(word: &str) -> Option<Form> {
    match word {
        "deliver" => just(&[Kind::Request]),
        "read" => just(&[Kind::Key, Kind::Stamp]),
        "versions" => just(&[Kind::Key]),
        "tick" => just(&[Kind::Ticks]),
        "gc" => just(&[Kind::Stamp]),
        _ => None,
    }
}

// Steps of runs of workers that are of no session, and transfers.
fn run_form(word: &str) -> Option<Form> {
    match word {
        "seed" => just(&[Kind::Key, Kind::Value]),
        "transfer" => just(&[
            Kind::Session,
            Kind::Key,
            Kind::Key,
            Kind::Amount,
            Kind::Mode,
        ]),
        _ => None,
    }
}

// Steps of the machine.
fn machine_form(word: &str) -> Option<Form> {
    match word {
        "draw" | "begin" | "abort" => just(&[Kind::Stamp]),
        "declare" => just(&[Kind::Stamp, Kind::Changes]),
        "commit" => just(&[Kind::Stamp, Kind::Stamp]),
        "read" => just(&[Kind::Stamp, Kind::SizedKey, Kind::Read]),
        "scan" => just(&[
            Kind::Stamp,
            Kind::SizedKey,
            Kind::SizedKey,
            Kind::Limit,
            Kind::Rows,
        ]),
        "answer" => Some(Form {
            members: &[Kind::Stamp, Kind::Fate],
            more: More::At,
        }),
        _ => None,
    }
}

// The keys between the regions, which line 1 may say.
fn regions_form(word: &str, number: u64) -> Option<Form> {
    if number == 1 && word == "regions" {
        just(&[Kind::Bounds])
    } else {
        None
    }
}

/// The form of the step with this word, in the line of this number of what is read.
pub(crate) fn form_of(kind: InputKind, number: u64, word: &str) -> Option<Form> {
    match kind {
        InputKind::Script => regions_form(word, number)
            .or_else(|| action_form(word))
            .or_else(|| request_form(word))
            .or_else(|| world_form(word)),
        InputKind::Run => regions_form(word, number)
            .or_else(|| action_form(word))
            .or_else(|| request_form(word).map(|form| Form {
                more: More::Nothing,
                ..form
            }))
            .or_else(|| run_form(word)),
        InputKind::Trace => machine_form(word),
        InputKind::History => None,
    }
}

// The words of all steps.
static WORDS: [&str; 25] = [
    "begin",
    "put",
    "insert",
    "delete",
    "lock",
    "get",
    "scan",
    "declare",
    "prewrite",
    "draw",
    "commit",
    "abort",
    "heartbeat",
    "finish",
    "stop",
    "resolve",
    "deliver",
    "gc",
    "read",
    "tick",
    "versions",
    "regions",
    "seed",
    "transfer",
    "answer",
];

/// The words of the steps that the line of this number may say.
pub(crate) fn words_of(
    alloc: Global,
    kind: InputKind,
    number: u64,
) -> Result<Vec<&'static str>, AllocError> {
    let mut words = Vec::new(alloc);
    'words: for word in WORDS.iter() {
        if form_of(kind, number, word).is_some() {
            words.push(*word)?;
        }
    }
    Ok(words)
}
