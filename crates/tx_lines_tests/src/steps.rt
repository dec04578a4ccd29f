//! The forms of steps, as worked scripts have them, and the causes why a line says none.
use std::alloc::Global;
use std::test::Fail;
use tx_step_text::put_step;
use tx_steps::{Line, Program};
use tx_text::{Broken, Parts};
use tx_types::{Cause, Key};

// Steps of simulations.
static STEPS: [&str; 45] = [
    r#"["begin","A"]"#,
    r#"["put","A","a","x"]"#,
    r#"["insert","A","a","x"]"#,
    r#"["insert","B","b",""]"#,
    r#"["delete","B","a"]"#,
    r#"["lock","A","a"]"#,
    r#"["get","B","a"]"#,
    r#"["get","A","a","lose"]"#,
    r#"["get","A","b","lose-reply"]"#,
    r#"["get","A","a","repeat"]"#,
    r#"["get","A","a","hold","h0"]"#,
    r#"["scan","B","a","z",10]"#,
    r#"["scan","B","a","z",1024]"#,
    r#"["scan","B","a","z",9,"lose"]"#,
    r#"["scan","B","a","z",9,"lose-reply"]"#,
    r#"["scan","B","a","z",9,"repeat"]"#,
    r#"["scan","B","a","z",9,"hold","h"]"#,
    r#"["declare","A","two-phase",10]"#,
    r#"["declare","A","two-phase",0]"#,
    r#"["declare","A","async",4294967295]"#,
    r#"["declare","A","async",10,2]"#,
    r#"["prewrite","A"]"#,
    r#"["prewrite","A","lose"]"#,
    r#"["prewrite","B","lose-reply"]"#,
    r#"["prewrite","A","repeat"]"#,
    r#"["prewrite","B","hold","h"]"#,
    r#"["draw","A"]"#,
    r#"["commit","A"]"#,
    r#"["commit","A","lose"]"#,
    r#"["commit","A","hold","h"]"#,
    r#"["abort","B"]"#,
    r#"["abort","B","repeat"]"#,
    r#"["heartbeat","A",20]"#,
    r#"["heartbeat","A",20,"hold","h"]"#,
    r#"["finish","A"]"#,
    r#"["stop","A"]"#,
    r#"["resolve","B",100]"#,
    r#"["deliver","h"]"#,
    r#"["read","a",1]"#,
    r#"["versions","a"]"#,
    r#"["tick",1]"#,
    r#"["tick",4294967295]"#,
    r#"["gc",5]"#,
    r#"["gc",18446744073709551615]"#,
    r#" [ "\u0067et" , "B" , "a" ] "#,
];

// JSON values that are no steps of simulations.
static NO_STEPS: [&str; 38] = [
    "{}",
    "[]",
    "7",
    r#"[7,"A"]"#,
    r#"["regions",["b"]]"#,
    r#"["put","A","a","x","y","z","u","v"]"#,
    r#"["get","A",1]"#,
    r#"["stop","A","B"]"#,
    r#"["gc",1.5]"#,
    r#"["begin"]"#,
    r#"["begin",1]"#,
    r#"["begin","A","B"]"#,
    r#"["Begin","A"]"#,
    r#"["Insert","A","a","x"]"#,
    r#"["inserts","A","a","x"]"#,
    r#"["insert","A","a"]"#,
    r#"["insert","A","a",1]"#,
    r#"["insert","A","a","x","y"]"#,
    r#"["insert","A","a","x","lose"]"#,
    r#"["insert","A","a","x","y","z","u","v"]"#,
    r#"["seed","a","1"]"#,
    r#"["transfer","S","a","b",1,"async"]"#,
    r#"["put","A","a"]"#,
    r#"["put","A","a","x","lose"]"#,
    r#"["delete","A","a","lose"]"#,
    r#"["scan","B","a","z",0]"#,
    r#"["scan","B","a","z",1025]"#,
    r#"["declare","A","one-phase",1]"#,
    r#"["declare","A","two-phase",1,1]"#,
    r#"["declare","A","async",4294967296]"#,
    r#"["prewrite","A","drop"]"#,
    r#"["prewrite","A","hold"]"#,
    r#"["prewrite","A","lose","h"]"#,
    r#"["draw","A","lose"]"#,
    r#"["heartbeat","A",4294967296]"#,
    r#"["tick",0]"#,
    r#"["tick",4294967296]"#,
    r#"["read","a",-1]"#,
];

// Steps of runs: whether simulations have them too.
static RUNS: [(&str, bool); 18] = [
    (r#"["seed","a","1"]"#, false),
    (r#"["transfer","S","a","b",1,"async"]"#, false),
    (
        r#"["transfer","S","a","b",1000000000000,"two-phase"]"#,
        false,
    ),
    (r#"["begin","A"]"#, true),
    (r#"["put","A","a","x"]"#, true),
    (r#"["insert","A","a","x"]"#, true),
    (r#"["delete","A","a"]"#, true),
    (r#"["lock","A","a"]"#, true),
    (r#"["get","A","a"]"#, true),
    (r#"["scan","A","a","z",10]"#, true),
    (r#"["declare","A","async",10,2]"#, true),
    (r#"["prewrite","A"]"#, true),
    (r#"["draw","A"]"#, true),
    (r#"["commit","A"]"#, true),
    (r#"["heartbeat","A",20]"#, true),
    (r#"["finish","A"]"#, true),
    (r#"["stop","A"]"#, true),
    (r#"["resolve","A",100]"#, true),
];

// JSON values that are no steps of runs.
static NO_RUNS: [&str; 15] = [
    r#"["insert","A","a"]"#,
    r#"["get","A","a","lose"]"#,
    r#"["prewrite","A","hold","h"]"#,
    r#"["deliver","h"]"#,
    r#"["read","a",1]"#,
    r#"["versions","a"]"#,
    r#"["tick",1]"#,
    r#"["gc",1]"#,
    r#"["seed","a"]"#,
    r#"["seed","a",1]"#,
    r#"["transfer","S","a","b",0,"async"]"#,
    r#"["transfer","S","a","b",1000000000001,"async"]"#,
    r#"["transfer","S","a","a",1,"async"]"#,
    r#"["transfer","S","a","b",1,"one-phase"]"#,
    r#"["transfer","S","a","b",1,"async",1]"#,
];

// Line 1: how many keys between regions it says.
static BOUNDS: [(&str, Option<usize>); 10] = [
    (r#"["regions",["b"]]"#, Some(1)),
    (r#" [ "regions" , ["a3","a5","a8"] ] "#, Some(3)),
    (r#"["regions",["a","b","b"]]"#, None),
    (r#"["regions",["b","a"]]"#, None),
    (r#"["regions",[]]"#, None),
    (r#"["regions",[""]]"#, None),
    (r#"["regions",["a",1]]"#, None),
    (r#"["regions","a"]"#, None),
    (r#"["regions",["a"],1]"#, None),
    (r#"["region",["a"]]"#, None),
];

// Lines that say no value, with their numbers: of several causes the first counts.
static NO_LINES: [(&[u8], u64, Cause); 6] = [
    (b"[", 1_000_001, Cause::Lines),
    (b"[\"begin\",\"A\"]", 1_000_001, Cause::Lines),
    (b"", 1, Cause::Json),
    (b"[\"put\",\"A\"", 3, Cause::Json),
    (b"[\"put\",\"A\",\"\xff\",\"x\"]", 1_000_000, Cause::Json),
    (b"[1]]", 1, Cause::Json),
];

// Whether a line is JSON, and says a step of this program.
fn says(alloc: Global, program: Program, line: &str) -> Result<bool, Broken> {
    let mut parts = Parts::new();
    match Line::read(alloc, 1, line.as_bytes(), &mut parts)? {
        Ok(line) => {
            let says = line.step(program).is_some();
            drop(line);
            Ok(says)
        }
        Err(_) => Ok(false),
    }
}

// What is written for the step that a line says: no bytes where it says none.
fn written(alloc: Global, program: Program, line: &str) -> Result<Vec<u8>, Broken> {
    let mut out = Vec::new(alloc);
    let mut parts = Parts::new();
    if let Ok(line) = Line::read(alloc, 1, line.as_bytes(), &mut parts)? {
        if let Some(step) = line.step(program) {
            put_step(&mut out, &step)?;
        }
    }
    Ok(out)
}

#[test]
fn steps_are_written_as_they_are_read(rt: HostRuntime) -> Result<(), Fail> {
    for line in STEPS {
        let plain = if line.starts_with(' ') {
            r#"["get","B","a"]"#
        } else {
            line
        };
        let out = written(rt.alloc(), Program::Simulate, line)?;
        assert!(rt; out.as_slice() == plain.as_bytes(), "{line}");
    }
    for (line, _) in RUNS {
        let out = written(rt.alloc(), Program::Run, line)?;
        assert!(rt; out.as_slice() == line.as_bytes(), "{line}");
    }
    Ok(())
}

#[test]
fn every_step_is_read(rt: HostRuntime) -> Result<(), Fail> {
    for line in STEPS {
        assert_eq!(rt; says(rt.alloc(), Program::Simulate, line)?, true, "{line}");
    }
    Ok(())
}

#[test]
fn other_lines_say_none(rt: HostRuntime) -> Result<(), Fail> {
    for line in NO_STEPS {
        assert_eq!(rt; says(rt.alloc(), Program::Simulate, line)?, false, "{line}");
    }
    Ok(())
}

#[test]
fn runs_have_their_own(rt: HostRuntime) -> Result<(), Fail> {
    for (line, both) in RUNS {
        let found = (
            says(rt.alloc(), Program::Run, line)?,
            says(rt.alloc(), Program::Simulate, line)?,
        );
        assert_eq!(rt; found, (true, both), "{line}");
    }
    Ok(())
}

#[test]
fn runs_have_no_others(rt: HostRuntime) -> Result<(), Fail> {
    for line in NO_RUNS {
        assert_eq!(rt; says(rt.alloc(), Program::Run, line)?, false, "{line}");
    }
    Ok(())
}

// How many keys between regions a line says.
fn count_bounds(alloc: Global, line: &str) -> Result<Option<usize>, Fail> {
    let mut parts = Parts::new();
    match Line::read(alloc, 1, line.as_bytes(), &mut parts)? {
        Ok(line) => Ok(count_of(line.bounds(alloc)?)),
        Err(_) => Ok(None),
    }
}

fn count_of(keys: Option<Vec<Key>>) -> Option<usize> {
    Some(keys?.len())
}

#[test]
fn bounds_are_read(rt: HostRuntime) -> Result<(), Fail> {
    for (line, count) in BOUNDS {
        assert_eq!(rt; count_bounds(rt.alloc(), line)?, count, "{line}");
    }
    Ok(())
}

// The cause why a line says no value, if it says none.
fn cause_of(alloc: Global, number: u64, line: &[u8]) -> Result<Option<Cause>, Broken> {
    let mut parts = Parts::new();
    match Line::read(alloc, number, line, &mut parts)? {
        Ok(line) => {
            drop(line);
            Ok(None)
        }
        Err(cause) => Ok(Some(cause)),
    }
}

#[test]
fn the_first_cause_counts(rt: HostRuntime) -> Result<(), Fail> {
    for (line, number, cause) in NO_LINES {
        assert_eq!(rt; cause_of(rt.alloc(), number, line)?, Some(cause));
    }
    Ok(())
}

#[test]
fn a_long_line_is_long_before_all(rt: HostRuntime) -> Result<(), Fail> {
    let line = vec![in rt.alloc(); b'['; 524_289]?;
    let cause = cause_of(rt.alloc(), 1_000_001, line.as_slice());
    drop(line);
    assert_eq!(rt; cause?, Some(Cause::Long));
    Ok(())
}
