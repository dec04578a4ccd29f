//! Whether sentences agree with readers: something is wrong with just the lines that are no steps.
use std::alloc::Global;
use std::test::Fail;
use tx_check::check;
use tx_sentences::{InputKind, why};
use tx_steps::{Line, Program};
use tx_streams::NotedFaults;
use tx_text::{End, Parts};
use tx_types::Cause;

// Lines of scripts, each a step of one program or of none.
static LINES: [&str; 38] = [
    r#"["begin","A"]"#,
    r#"["put","A","a","x"]"#,
    r#"["put","A","a"]"#,
    r#"["insert","A","a","x"]"#,
    r#"["insert","A","a"]"#,
    r#"["delete","B","a"]"#,
    r#"["lock","A","a"]"#,
    r#"["get","B","a"]"#,
    r#"["get","A","a","lose"]"#,
    r#"["get","A","b","lose-reply"]"#,
    r#"["get","A","a","repeat"]"#,
    r#"["get","A","a","hold","h0"]"#,
    r#"["get","A","a","hold","h0",1]"#,
    r#"["scan","B","a","z",1024]"#,
    r#"["scan","B","a","z",9,"hold","h"]"#,
    r#"["declare","A","two-phase",0]"#,
    r#"["declare","A","two-phase",0,1]"#,
    r#"["declare","A","async",10,2]"#,
    r#"["declare","A","async",10,2,3]"#,
    r#"["prewrite","B","lose-reply"]"#,
    r#"["draw","A"]"#,
    r#"["draw","A","lose"]"#,
    r#"["commit","A","hold","h"]"#,
    r#"["abort","B","repeat"]"#,
    r#"["heartbeat","A",20,"hold","h"]"#,
    r#"["finish","A"]"#,
    r#"["stop","A"]"#,
    r#"["resolve","B",100]"#,
    r#"["deliver","h"]"#,
    r#"["read","a",18446744073709551615]"#,
    r#"["versions","a"]"#,
    r#"["tick",4294967295]"#,
    r#"["tick",4294967296]"#,
    r#"["gc",18446744073709551616]"#,
    r#"["seed","a","5"]"#,
    r#"["transfer","A","a","b",5,"async"]"#,
    r#"["transfer","A","a","b",1000000000001,"async"]"#,
    r#"["transfer","A","a","a",5,"async"]"#,
];

// Steps of the machine, and lines that are none.
static TRACES: [&str; 18] = [
    r#"["draw",3]"#,
    r#"["draw",3,4]"#,
    r#"["begin",3]"#,
    r#"["declare",3,[["a","put","x"],["b","delete"],["c","lock"]]]"#,
    r#"["declare",3,[["a","put","x"],["b","erase"]]]"#,
    r#"["declare",3,[["d","insert","x"]]]"#,
    r#"["declare",3,[["d","insert"]]]"#,
    r#"["declare",3,{}]"#,
    r#"["commit",3,4]"#,
    r#"["commit",3,-4]"#,
    r#"["abort",3]"#,
    r#"["read",4,"a","x"]"#,
    r#"["read",4,"a",null]"#,
    r#"["read",4,"a",false]"#,
    r#"["scan",4,"a","m",9,[["a","x"]]]"#,
    r#"["scan",4,"a","m",9,[["a","x","y"]]]"#,
    r#"["answer",3,"committed",4]"#,
    r#"["answer",3,"aborted"]"#,
];

// Whether a line of a script is a step of a program.
fn is_step(alloc: Global, program: Program, line: &str) -> Result<bool, Fail> {
    let mut parts = Parts::new();
    match Line::read(alloc, 2, line.as_bytes(), &mut parts)? {
        Ok(said) => Ok(said.step(program).is_some()),
        Err(_) => Ok(false),
    }
}

// Whether something is found to be wrong with a line.
fn is_faulted(alloc: Global, kind: InputKind, line: &str) -> Result<bool, Fail> {
    let fault = NotedFaults {
        number: 2,
        cause: Cause::Form,
    };
    Ok(why(alloc, kind, fault, line.as_bytes(), None)?.is_some())
}

// Whether a line of a trace is none of its steps.
fn is_no_step(alloc: Global, line: &str) -> Result<bool, Fail> {
    let mut written = Vec::new(alloc);
    Ok(check(alloc, &mut line.as_bytes(), &mut written)? == End::Faulted)
}

// Something is wrong with just the lines that are no steps.
#[test]
fn sentences_agree_with_the_readers_of_lines(rt: HostRuntime) -> Result<(), Fail> {
    for line in LINES {
        let simulated = is_step(rt.alloc(), Program::Simulate, line)?;
        let is_wrong = is_faulted(rt.alloc(), InputKind::Script, line)?;
        assert!(rt; is_wrong != simulated, "simulate: {line}");
        let run = is_step(rt.alloc(), Program::Run, line)?;
        let is_wrong = is_faulted(rt.alloc(), InputKind::Run, line)?;
        assert!(rt; is_wrong != run, "run: {line}");
    }
    Ok(())
}

#[test]
fn sentences_agree_with_the_checker(rt: HostRuntime) -> Result<(), Fail> {
    for line in TRACES {
        let is_no_step = is_no_step(rt.alloc(), line)?;
        let is_wrong = is_faulted(rt.alloc(), InputKind::Trace, line)?;
        assert!(rt; is_wrong == is_no_step, "check: {line}");
    }
    Ok(())
}
