//! Lines of scripts that are faults, and the sentences that say why.
use std::alloc::Global;
use std::test::Fail;
use tx_sentences::{InputKind, Place, reason};
use tx_streams::NotedFaults;
use tx_types::Cause;

// Lines of scripts that are faults, and why.
static SCRIPTS: [(&str, Cause, &str); 47] = [
    (
        r#"["commit","A","loose"]"#,
        Cause::Form,
        r#"form: "loose" is no delivery (lose, lose-reply, repeat, hold); did you mean "lose"?"#,
    ),
    (
        r#"["prewrite","A","hold"]"#,
        Cause::Form,
        r#"form: "hold" wants a name behind it"#,
    ),
    (
        r#"["get","A","a","hold",7]"#,
        Cause::Form,
        "form: 7 is no held request's name (a string)",
    ),
    (
        r#"["abort","A","lose","lose"]"#,
        Cause::Form,
        r#"form: "lose" stands behind the last member of the step"#,
    ),
    (
        r#"["putt","A","a","x"]"#,
        Cause::Form,
        r#"form: "putt" is no step of txkv simulate; did you mean "put"?"#,
    ),
    (
        r#"["GET","A","a"]"#,
        Cause::Form,
        r#"form: "GET" is no step of txkv simulate; did you mean "get"?"#,
    ),
    (
        r#"["commti","A"]"#,
        Cause::Form,
        r#"form: "commti" is no step of txkv simulate; did you mean "commit"?"#,
    ),
    (
        r#"["declare","A","asinc",9]"#,
        Cause::Form,
        r#"form: "asinc" is no mode (two-phase, async); did you mean "async"?"#,
    ),
    (
        r#"["rollback","A"]"#,
        Cause::Form,
        r#"form: "rollback" is no step of txkv simulate; did you mean "abort"?"#,
    ),
    (
        r#"["declare","A","2pc",9]"#,
        Cause::Form,
        r#"form: "2pc" is no mode (two-phase, async); did you mean "two-phase"?"#,
    ),
    (
        r#"["draw",3]"#,
        Cause::Form,
        "form: it is a step of a trace, which txkv check reads",
    ),
    (
        r#"["gc", 1e3]"#,
        Cause::Form,
        "form: 1e3 is no timestamp (a whole number below 2^64)",
    ),
    (
        r#"["gc",18446744073709551616]"#,
        Cause::Form,
        "form: 18446744073709551616 is no timestamp (a whole number below 2^64)",
    ),
    (
        "[\"x\u{9b}2J\"]",
        Cause::Form,
        r#"form: "x\u009b2J" is no step of txkv simulate"#,
    ),
    (
        r#"{"type":"ok","ops":[]}"#,
        Cause::Form,
        "form: the line is no array: transactions of a history are for txkv import",
    ),
    ("", Cause::Json, "json: the line is empty"),
    (" \t", Cause::Json, "json: the line is empty"),
    (
        "\u{feff}[\"begin\",\"A\"]",
        Cause::Json,
        "json: the line begins with a byte order mark",
    ),
    (
        r#"["seed","a","1"]"#,
        Cause::Form,
        r#"form: "seed" is no step of txkv simulate; txkv run has it"#,
    ),
    (
        r#"["regions",["m"]]"#,
        Cause::Form,
        "form: only line 1 may say the regions",
    ),
    (
        r#"["put","A","a"]"#,
        Cause::Form,
        r#"form: "put" wants behind it: session's name, key, value"#,
    ),
    (
        r#"["put","A","a",7]"#,
        Cause::Form,
        "form: 7 is no value (a string)",
    ),
    (
        r#"["put","A","a","x","y"]"#,
        Cause::Form,
        r#"form: "y" stands behind the last member of the step"#,
    ),
    (
        r#"["begin",null]"#,
        Cause::Form,
        "form: null is no session's name (a string)",
    ),
    (
        r#"["scan","A","a","z",0]"#,
        Cause::Form,
        "form: 0 is no limit (1 to 1024 rows)",
    ),
    (
        r#"["scan","A","a","z",1025]"#,
        Cause::Form,
        "form: 1025 is no limit (1 to 1024 rows)",
    ),
    (
        r#"["declare","A","three-phase",9]"#,
        Cause::Form,
        r#"form: "three-phase" is no mode (two-phase, async)"#,
    ),
    (
        r#"["declare","A","async",4294967296]"#,
        Cause::Form,
        "form: 4294967296 is no time to live (0 to 4294967295 ticks)",
    ),
    (
        r#"["declare","A","async",9,"x"]"#,
        Cause::Form,
        r#"form: "x" is no timestamp (a whole number below 2^64)"#,
    ),
    (
        r#"["declare","A","two-phase",9,2]"#,
        Cause::Form,
        "form: 2 stands behind the last member of the step",
    ),
    (
        r#"["tick",0]"#,
        Cause::Form,
        "form: 0 is no number of ticks (1 to 4294967295)",
    ),
    (
        r#"["read","a",1.5]"#,
        Cause::Form,
        "form: 1.5 is no timestamp (a whole number below 2^64)",
    ),
    (
        r#"["gc",-1]"#,
        Cause::Form,
        "form: -1 is no timestamp (a whole number below 2^64)",
    ),
    (
        r#"[{"k":1},"A"]"#,
        Cause::Form,
        r#"form: {"k":1} is no step's word (a string)"#,
    ),
    ("7", Cause::Form, "form: the line is no array"),
    (
        "[]",
        Cause::Form,
        "form: the array is empty: a step begins with its word",
    ),
    (
        r#"["get","A""#,
        Cause::Json,
        "json: the line is no JSON value: EOF while parsing at byte 10",
    ),
    (
        " :keys",
        Cause::Json,
        "json: the line is no JSON value: invalid JSON at byte 2; words with a colon are for a terminal",
    ),
    (
        r#"["get","A","a"]"#,
        Cause::Name,
        r#"name: no session "A" is live"#,
    ),
    (
        r#"["begin","A"]"#,
        Cause::Name,
        r#"name: a session "A" is live already"#,
    ),
    (
        r#"["begin",""]"#,
        Cause::Name,
        r#"name: "" is no name (1 to 64 bytes)"#,
    ),
    (
        r#"["deliver","h"]"#,
        Cause::Name,
        r#"name: no request is held under "h""#,
    ),
    (
        r#"["commit","A","hold","h"]"#,
        Cause::Name,
        r#"name: no session "A" is live, or a request is held under "h" already"#,
    ),
    (
        r#"["put","A","a","x"]"#,
        Cause::Order,
        r#"order: session "A" has declared its write set already"#,
    ),
    (
        r#"["finish","A"]"#,
        Cause::Order,
        r#"order: session "A" has no outcome yet, since nothing is known of its commit: abort it, or stop it"#,
    ),
    (
        r#"["begin","A"]"#,
        Cause::Sessions,
        "sessions: 256 sessions are live already",
    ),
    (
        r#"["get","A","a","hold","h"]"#,
        Cause::Sessions,
        "sessions: 1024 requests are held already",
    ),
];

// The fourth line of standard input.
const HERE: Place<'static> = Place {
    file: None,
    line: 4,
};

// The sentence for a line, which is the fourth.
fn sentence_of(alloc: Global, kind: InputKind, cause: Cause, line: &[u8]) -> Result<String, Fail> {
    let fault = NotedFaults { number: 4, cause };
    Ok(reason(alloc, kind, HERE, fault, Some(line), None)?)
}

/// Whether just this is told of line 4.
pub(crate) fn is_told(
    alloc: Global,
    kind: InputKind,
    cause: Cause,
    line: &str,
    sentence: &str,
) -> Result<bool, Fail> {
    let told = sentence_of(alloc, kind, cause, line.as_bytes())?;
    Ok(told.strip_prefix("line 4: ") == Some(sentence))
}

#[test]
fn sentences_name_line_member_and_rule(rt: HostRuntime) -> Result<(), Fail> {
    for (line, cause, sentence) in SCRIPTS {
        let is_told = is_told(rt.alloc(), InputKind::Script, cause, line, sentence)?;
        assert!(rt; is_told, "{line}");
    }
    Ok(())
}

#[test]
fn lines_that_cannot_be_shown_have_a_sentence(rt: HostRuntime) -> Result<(), Fail> {
    let told = sentence_of(
        rt.alloc(),
        InputKind::Trace,
        Cause::Json,
        b"[\"draw\",\"\xff\"]",
    )?;
    assert_eq!(rt; told.as_str(), "line 4: json: the line is not UTF-8");
    let told = sentence_of(rt.alloc(), InputKind::Trace, Cause::Long, b"[\"draw\"")?;
    assert_eq!(rt;
        told.as_str(),
        "line 4: long: the line is longer than 524288 bytes"
    );
    let fault = NotedFaults {
        number: 1_000_001,
        cause: Cause::Lines,
    };
    let place = Place {
        file: None,
        line: 1_000_001,
    };
    let told = reason(rt.alloc(), InputKind::Run, place, fault, None, None)?;
    assert_eq!(rt;
        told.as_str(),
        "line 1000001: lines: the script has more than 1000000 lines"
    );
    Ok(())
}

#[test]
fn lines_are_not_nested_deeper(rt: HostRuntime) -> Result<(), Fail> {
    let line = "[".repeat(rt.alloc(), 128)?;
    let told = sentence_of(rt.alloc(), InputKind::Trace, Cause::Json, line.as_bytes())?;
    assert_eq!(rt;
        told.as_str(),
        "line 4: json: the line is nested deeper than 127"
    );
    Ok(())
}

#[test]
fn long_members_are_cut(rt: HostRuntime) -> Result<(), Fail> {
    let value = "é".repeat(rt.alloc(), 400)?;
    let line = format!(in rt.alloc(); r#"["begin",["{value}"]]"#)?;
    let told = sentence_of(rt.alloc(), InputKind::Script, Cause::Form, line.as_bytes())?;
    let beginning = "é".repeat(rt.alloc(), 29)?;
    let wanted = format!(in rt.alloc();
        r#"line 4: form: ["{beginning}.. is no session's name (a string)"#
    )?;
    assert_eq!(rt; told.as_str(), wanted.as_str());
    Ok(())
}

// Where it is known what is so of the session, that alone is said of it.
#[test]
fn what_is_known_of_a_session_is_the_reason(rt: HostRuntime) -> Result<(), Fail> {
    let fault = NotedFaults {
        number: 4,
        cause: Cause::Order,
    };
    let line = b"[\"draw\",\"A\"]";
    let state = Some("is aborted");
    let told = reason(
        rt.alloc(),
        InputKind::Script,
        HERE,
        fault,
        Some(line),
        state,
    )?;
    assert_eq!(rt; told.as_str(), "line 4: order: session \"A\" is aborted");
    Ok(())
}
