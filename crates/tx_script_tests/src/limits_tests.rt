//! Lines at the limits of a script and of a trace, and lines that no row of data can have.
use std::alloc::{AllocError, Global};
use std::process::Abort;
use std::test::Fail;
use tx_check::check;
use tx_flat::FlatCells;
use tx_reply::{REFUSAL_BYTES, ScriptReply, put_reply};
use tx_script::{End, Plain, simulate};
use tx_types::limits::{MAX_KEY_BYTES, MAX_LINE_BYTES, MAX_VALUE_BYTES};

const YES: &str = "[\"check\",\"yes\"]\n";

const LONG: &str = "[1,\"E16\",\"long\"]\n";

const FORM: &str = "[1,\"E16\",\"form\"]\n";

// Checks that the script ends so, and that this alone is written.
fn plays<R: Abort + AllocGlobal>(rt: &R, script: &[u8], end: End, text: &str) -> Result<(), Fail> {
    let mut reader = script;
    let mut writer = Vec::new(rt.alloc());
    let ended = simulate::<FlatCells, _, _, _>(
        rt.alloc(),
        &Plain,
        &mut reader,
        &mut writer,
        &mut None,
    )?;
    assert_eq!(rt; writer.as_slice(), text.as_bytes());
    assert_eq!(rt; ended, end);
    Ok(())
}

// The same of a trace.
fn checks<R: Abort + AllocGlobal>(rt: &R, trace: &[u8], end: End, text: &str) -> Result<(), Fail> {
    let mut reader = trace;
    let mut writer = Vec::new(rt.alloc());
    let ended = check(rt.alloc(), &mut reader, &mut writer)?;
    assert_eq!(rt; writer.as_slice(), text.as_bytes());
    assert_eq!(rt; ended, end);
    Ok(())
}

// A step, and blanks after it up to so many bytes.
fn line_of(alloc: Global, step: &str, bytes: usize) -> Result<String, AllocError> {
    let mut line = String::from_str(alloc, step)?;
    let blanks = " ".repeat(alloc, bytes.saturating_sub(step.len()))?;
    line.push_str(blanks.as_str())?;
    Ok(line)
}

#[test]
fn lines_have_so_many_bytes(rt: HostRuntime) -> Result<(), Fail> {
    for (step, bytes, end, text) in [
        (
            "[\"tick\",1]",
            MAX_LINE_BYTES,
            End::Well,
            "[1,\"last\",1]\n",
        ),
        ("[\"tick\",1]", MAX_LINE_BYTES + 1, End::Faulted, LONG),
        ("", MAX_LINE_BYTES + 1, End::Faulted, LONG),
    ] {
        let line = line_of(rt.alloc(), step, bytes)?;
        plays(&rt, line.as_bytes(), end, text)?;
    }
    Ok(())
}

#[test]
fn lines_are_faults_or_steps(rt: HostRuntime) -> Result<(), Fail> {
    let rows: [(&[u8], End, &str); 4] = [
        (b"\n", End::Faulted, "[1,\"E16\",\"json\"]\n"),
        (b"\xff", End::Faulted, "[1,\"E16\",\"json\"]\n"),
        (b"[\"tick\",0]", End::Faulted, FORM),
        (
            b"[\"tick\",4294967295]\n[\"tick\",1]\n[\"tick\",1]",
            End::Well,
            "[1,\"last\",4294967295]\n[2,\"last\",4294967296]\n[3,\"E11\"]\n",
        ),
    ];
    for (script, end, text) in rows {
        plays(&rt, script, end, text)?;
    }
    Ok(())
}

#[test]
fn lines_of_traces_have_so_many_bytes(rt: HostRuntime) -> Result<(), Fail> {
    for (bytes, more, end, text) in [
        (MAX_LINE_BYTES, "", End::Well, YES),
        (MAX_LINE_BYTES + 1, "", End::Faulted, LONG),
        (MAX_LINE_BYTES + 1, "\n[\"draw\",2]\n", End::Faulted, LONG),
    ] {
        let mut line = line_of(rt.alloc(), "[\"draw\",1]", bytes)?;
        line.push_str(more)?;
        checks(&rt, line.as_bytes(), end, text)?;
    }
    Ok(())
}

#[test]
fn lines_of_traces_are_faults_or_steps(rt: HostRuntime) -> Result<(), Fail> {
    let rows: [(&[u8], End, &str); 3] = [
        (b"[\"draw\",1]\n\n", End::Faulted, "[2,\"E16\",\"json\"]\n"),
        (
            b"[\"draw\",1]\n[\"read\",1,\"\xff\",null]\n",
            End::Faulted,
            "[2,\"E16\",\"json\"]\n",
        ),
        (b" [ \"draw\" , 1 ]\r\n[\"begin\",1]", End::Well, YES),
    ];
    for (trace, end, text) in rows {
        checks(&rt, trace, end, text)?;
    }
    Ok(())
}

#[test]
fn keys_and_values_have_limits(rt: HostRuntime) -> Result<(), Fail> {
    for (key, value, end, text) in [
        (
            MAX_KEY_BYTES,
            MAX_VALUE_BYTES,
            End::No,
            "[\"check\",\"no\",1]\n",
        ),
        (MAX_KEY_BYTES + 1, 0, End::Faulted, FORM),
        (1, MAX_VALUE_BYTES + 1, End::Faulted, FORM),
    ] {
        let key = "k".repeat(rt.alloc(), key)?;
        let value = "v".repeat(rt.alloc(), value)?;
        let read = format!(in rt.alloc(); "[\"read\",0,\"{key}\",\"{value}\"]")?;
        checks(&rt, read.as_bytes(), end, text)?;
    }
    Ok(())
}

#[test]
fn want_of_memory_has_a_line_of_its_own(rt: HostRuntime) -> Result<(), Fail> {
    let mut text = Vec::with_capacity(rt.alloc(), REFUSAL_BYTES)?;
    for (number, line) in [
        (2, "[2,\"E12\"]\n"),
        (u64::MAX, "[18446744073709551615,\"E12\"]\n"),
    ] {
        text.clear();
        put_reply(&mut text, number, &ScriptReply::OutOfMemory)?;
        assert_eq!(rt; text.as_slice(), line.as_bytes());
        assert!(rt; line.len() <= REFUSAL_BYTES);
    }
    Ok(())
}
