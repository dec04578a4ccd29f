//! What a terminal is told is safe, and what is typed there in words; what of a script is passed
//! over, kept, or never declared.
use std::alloc::Global;
use std::cell::RefCell;
use std::io::{Read, Write};
use std::test::Fail;
use tx_hints::{escaped, escaped_lines, escaped_output, places_of, wrapped};
use tx_sentences::{InputKind, Place, note_undeclared, reason, step_typed, undeclared_at};
use tx_streams::{Comments, Copied, Dropped, Escaping, NotedFaults, first_lines};
use tx_types::Cause;

// Whether each character of a text is seen at a terminal.
fn is_safe(text: &str) -> bool {
    text.chars().all(|character| places_of(character) > 0)
}

// What is told of a line whose word, name or value has this character in it, at a file with it in
// its name.
fn told_of(alloc: Global, form: usize, character: char) -> Result<String, Fail> {
    let line = match form {
        0 => format!(in alloc; "[\"x{character}y\"]")?,
        1 => format!(in alloc; "[\"begin\",[\"{character}\"]]")?,
        2 => format!(in alloc; "[\"get\",\"A\",\"a\",\"{character}\"]")?,
        _ => format!(in alloc; "{character}[")?,
    };
    let fault = NotedFaults {
        number: 2,
        cause: Cause::Form,
    };
    let file = format!(in alloc; "a{character}b")?;
    let place = Place {
        file: Some(file.as_str()),
        line: 3,
    };
    let kind = InputKind::Script;
    Ok(reason(alloc, kind, place, fault, Some(line.as_bytes()), None)?)
}

// Of every byte as a character, and of what turns the direction of a text or takes no place.
#[test]
fn what_is_told_is_safe(rt: HostRuntime) -> Result<(), Fail> {
    for code in (0_u32..256).chain([0x202e, 0x2028, 0x200b, 0x2066, 0xfeff, 0x301, 0xe0001]) {
        let character = char::from_u32(code).unwrap_or('x');
        for form in 0..4 {
            let told = told_of(rt.alloc(), form, character)?;
            assert!(rt; is_safe(told.as_str()), "{code}, form {form}");
        }
    }
    Ok(())
}

#[test]
fn only_what_is_not_seen_is_escaped(rt: HostRuntime) -> Result<(), Fail> {
    let text = "a\u{1b}[2J\r\n\u{9b}é\u{202e}\u{e0001}字\\\"";
    let told = escaped(rt.alloc(), text)?;
    assert_eq!(rt;
        told.as_str(),
        "a\\u001b[2J\\r\\n\\u009bé\\u202e\\udb40\\udc01字\\\""
    );
    let told = escaped_lines(rt.alloc(), "a\u{7f}\nb")?;
    assert_eq!(rt; told.as_str(), "a\\u007f\nb\n");
    let shown = escaped_output(rt.alloc(), "[\"\u{9b}\",\t\"é\u{200f}\"]\r\n[")?;
    assert_eq!(rt; shown.as_str(), "[\"\\u009b\",\t\"é\\u200f\"]\\r\n[");
    Ok(())
}

// What comes of a text that is written so many bytes at a time, where that goes to a terminal, or
// not.
fn written(alloc: Global, text: &[u8], most: usize, is_terminal: bool) -> Result<Vec<u8>, Fail> {
    let mut out = Vec::new(alloc);
    let mut writer = Escaping::new(alloc, &mut out, is_terminal);
    for part in text.chunks(most) {
        writer.write_all(part)?;
    }
    writer.flush()?;
    drop(writer);
    Ok(out)
}

#[test]
fn what_goes_to_a_terminal_is_safe(rt: HostRuntime) -> Result<(), Fail> {
    let text = "[1,\"value\",\"\u{1b}[2J\u{7f}\u{9b}é字\u{202e}\u{1f600}\u{e0001}\"]\n".as_bytes();
    let shown =
        "[1,\"value\",\"\\u001b[2J\\u007f\\u009bé字\\u202e\u{1f600}\\udb40\\udc01\"]\n".as_bytes();
    for most in 1..=text.len() {
        let at_terminal = written(rt.alloc(), text, most, true)?;
        let elsewhere = written(rt.alloc(), text, most, false)?;
        let is_safe = at_terminal.as_slice() == shown && elsewhere.as_slice() == text;
        assert!(rt; is_safe, "{most} bytes at a time");
    }
    let broken = written(rt.alloc(), b"a\xc3\n\xe5\xad\n\xff", 2, true)?;
    assert_eq!(rt; broken.as_slice(), "a\u{fffd}\n\u{fffd}\n".as_bytes());
    Ok(())
}

#[test]
fn lines_are_broken_below_their_last_column(rt: HostRuntime) -> Result<(), Fail> {
    let text = "  --name <N>  one two three four five six seven eight\nas it is";
    let told = wrapped(rt.alloc(), text, 44)?;
    assert_eq!(rt;
        told.as_str(),
        "  --name <N>  one two three four five six\n              seven eight\nas it is\n"
    );
    Ok(())
}

// What is typed, as lines 1 and 2, and the steps that it is.
static TYPED: [(&str, Option<&str>); 17] = [
    ("A begin", Some(r#"["begin","A"]"#)),
    ("begin A", Some(r#"["begin","A"]"#)),
    ("A put a 1", Some(r#"["put","A","a","1"]"#)),
    ("  A  put a \"x y\" ", Some(r#"["put","A","a","x y"]"#)),
    (
        "A scan a c 9 lose",
        Some(r#"["scan","A","a","c",9,"lose"]"#),
    ),
    ("A declare async 20", Some(r#"["declare","A","async",20]"#)),
    (
        "A declare async 20 4",
        Some(r#"["declare","A","async",20,4]"#),
    ),
    ("A prewrite hold h", Some(r#"["prewrite","A","hold","h"]"#)),
    ("A heartbeat x", Some(r#"["heartbeat","A","x"]"#)),
    ("deliver h", Some(r#"["deliver","h"]"#)),
    ("read a 3", Some(r#"["read","a",3]"#)),
    ("tick 4", Some(r#"["tick",4]"#)),
    (
        "gc 18446744073709551616",
        Some(r#"["gc",18446744073709551616]"#),
    ),
    ("versions a", Some(r#"["versions","a"]"#)),
    ("finish", Some(r#"["finish"]"#)),
    ("A frob a", None),
    ("A", None),
];

// Whether what is typed is this step.
fn is_typed(alloc: Global, text: &str, step: Option<&str>) -> Result<bool, Fail> {
    Ok(match step_typed(alloc, 2, text)? {
        Some(found) => Some(found.as_slice()) == step.map(|step| step.as_bytes()),
        None => step.is_none(),
    })
}

#[test]
fn steps_are_typed_in_words(rt: HostRuntime) -> Result<(), Fail> {
    for (text, step) in TYPED {
        let is_typed = is_typed(rt.alloc(), text, step)?;
        assert!(rt; is_typed, "{text}");
    }
    let regions = step_typed(rt.alloc(), 1, "regions b m")?.unwrap_or(Vec::new(rt.alloc()));
    assert_eq!(rt;
        regions.as_slice(),
        b"[\"regions\",[\"b\",\"m\"]]".as_slice()
    );
    Ok(())
}

// A reader that gives so many bytes at a time.
#[derive(Drop)]
struct Crumbs<'a> {
    bytes: &'a [u8],
    most: usize,
}

impl Read for Crumbs<'_> {
    fn read(&mut self, buf: &mut [u8]) -> std::io::Result<usize> {
        let len = self.most.min(buf.len());
        let mut reader = self.bytes;
        let read = reader.read(&mut buf[..len])?;
        self.bytes = reader;
        Ok(read)
    }
}

// What is handed on of a text that comes so many bytes at a time, and where its third line stood.
fn handed_on(alloc: Global, text: &str, most: usize) -> Result<(Vec<u8>, u64), Fail> {
    let dropped = RefCell::new(Dropped::new(alloc));
    let crumbs = Crumbs {
        bytes: text.as_bytes(),
        most,
    };
    let mut reader = Comments::new(crumbs, &dropped, true);
    let mut found = Vec::new(alloc);
    reader.read_to_end(&mut found)?;
    let place = match dropped.try_borrow() {
        Ok(dropped) => dropped.place_of(3),
        Err(_) => 0,
    };
    Ok((found, place))
}

#[test]
fn comments_and_empty_lines_are_passed_over(rt: HostRuntime) -> Result<(), Fail> {
    let text = "# one\n\n[1]\n  [\"#\"]\r\n \t\r\n#\n # x\n[3]";
    for most in 1..=text.len() {
        let (found, place) = handed_on(rt.alloc(), text, most)?;
        let is_left = found.as_slice() == b"[1]\n[\"#\"]\r\n[3]".as_slice();
        assert!(rt; is_left && place == 8, "{most} bytes at a time");
    }
    Ok(())
}

#[test]
fn what_is_read_first_is_kept(rt: HostRuntime) -> Result<(), Fail> {
    let copy = RefCell::new(Vec::new(rt.alloc()));
    let crumbs = Crumbs {
        bytes: b"abcdefg",
        most: 3,
    };
    let mut reader = Copied::new(crumbs, &copy, 5);
    let mut found = Vec::new(rt.alloc());
    reader.read_to_end(&mut found)?;
    assert_eq!(rt; found.as_slice(), b"abcdefg".as_slice());
    let is_kept = match copy.try_borrow() {
        Ok(copy) => copy.as_slice() == b"abcde".as_slice(),
        Err(_) => false,
    };
    assert!(rt; is_kept);
    assert_eq!(rt; first_lines(b"a\nb\nc", 2), b"a\nb\n".as_slice());
    assert_eq!(rt; first_lines(b"a\nb\nc", 3), b"a\nb\nc".as_slice());
    Ok(())
}

// A script whose sessions A and B end with nothing declared, A having entered something.
static SCRIPT: [&str; 6] = [
    r#"["begin","A"]"#,
    r#"["begin","B"]"#,
    r#"["put","A","a","x"]"#,
    r#"["finish","A"]"#,
    r#"["finish","B"]"#,
    r#"["begin","A"]"#,
];

// Whether a line ends a session of this name that had entered something.
fn is_undeclared(alloc: Global, number: u64, name: Option<&str>) -> Result<bool, Fail> {
    let mut lines = Vec::new(alloc);
    for line in SCRIPT {
        lines.push(line.as_bytes())?;
    }
    Ok(match undeclared_at(alloc, lines.as_slice(), number)? {
        Some(found) => Some(found.as_str()) == name,
        None => name.is_none(),
    })
}

#[test]
fn what_was_never_declared_is_noted(rt: HostRuntime) -> Result<(), Fail> {
    for (number, name) in [
        (3, None),
        (4, Some("A")),
        (5, None),
        (6, None),
        (7, None),
        (0, None),
    ] {
        let is_noted = is_undeclared(rt.alloc(), number, name)?;
        assert!(rt; is_noted, "{number}");
    }
    let place = Place {
        file: Some("a.script"),
        line: 9,
    };
    let note = note_undeclared(rt.alloc(), place, 4, "A")?;
    assert_eq!(rt;
        note.as_str(),
        "a.script:9: step 4: session \"A\" ends as read-only: what it had entered was never declared"
    );
    Ok(())
}
