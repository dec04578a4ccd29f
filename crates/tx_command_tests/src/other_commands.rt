//! Lines of runs, of traces and of histories that are faults, and the sentences that say why.
use crate::sentences::is_told;
use std::test::Fail;
use tx_sentences::InputKind;
use tx_types::Cause;

// Lines of other commands that are faults, and why.
static OTHERS: [(InputKind, &str, Cause, &str); 18] = [
    (
        InputKind::Trace,
        r#"["begin","A"]"#,
        Cause::Form,
        "form: it is a step of a script, which txkv simulate reads",
    ),
    (
        InputKind::History,
        r#"["begin","A"]"#,
        Cause::Form,
        "form: the line is no object: steps of scripts are for txkv simulate, those of traces for txkv check",
    ),
    (
        InputKind::History,
        r#"{"process":[1],"type":"ok","ops":[]}"#,
        Cause::Form,
        r#"form: "process" is no string of 1 to 512 bytes and no whole number below 2^64"#,
    ),
    (
        InputKind::History,
        r#"{"type":"ok","id":1,"i\u0064":2,"ops":[]}"#,
        Cause::Form,
        r#"form: the transaction has "id" twice"#,
    ),
    (
        InputKind::History,
        r#"{"type":"ok","ops":[]}"#,
        Cause::Form,
        "form: the history is at fault here, as is told above",
    ),
    (
        InputKind::Run,
        r#"["get","A","a","lose"]"#,
        Cause::Form,
        r#"form: "lose" stands behind the last member of the step"#,
    ),
    (
        InputKind::Run,
        r#"["tick",1]"#,
        Cause::Form,
        r#"form: "tick" is no step of txkv run; txkv simulate has it"#,
    ),
    (
        InputKind::Run,
        r#"["transfer","A","a","a",5,"async"]"#,
        Cause::Form,
        "form: a transfer moves between two different keys",
    ),
    (
        InputKind::Run,
        r#"["transfer","A","a","b",0,"async"]"#,
        Cause::Form,
        "form: 0 is no amount (1 to 1000000000000)",
    ),
    (
        InputKind::Run,
        r#"["transfr","A","a","b",5,"async"]"#,
        Cause::Form,
        r#"form: "transfr" is no step of txkv run; did you mean "transfer"?"#,
    ),
    (
        InputKind::Trace,
        r#"["answer",3,"commited",4]"#,
        Cause::Form,
        r#"form: "commited" is no fate (committed, aborted); did you mean "committed"?"#,
    ),
    (
        InputKind::Trace,
        r#"["regions",["m"]]"#,
        Cause::Form,
        r#"form: "regions" is no step of txkv check"#,
    ),
    (
        InputKind::Trace,
        r#"["draw"]"#,
        Cause::Form,
        r#"form: "draw" wants behind it: timestamp"#,
    ),
    (
        InputKind::Trace,
        r#"["declare",3,[["a","put"]]]"#,
        Cause::Form,
        r#"form: [["a","put"]] is no write set ([[key,"put",value],[key,"insert",value],[key,"delete"],[key,"lock"],..])"#,
    ),
    (
        InputKind::Trace,
        r#"["read",3,"","x"]"#,
        Cause::Form,
        r#"form: "" is no key (a string of 1 to 512 bytes)"#,
    ),
    (
        InputKind::Trace,
        r#"["scan",3,"a","c",9,[["a"]]]"#,
        Cause::Form,
        r#"form: [["a"]] is no list of rows ([[key,value],..])"#,
    ),
    (
        InputKind::Trace,
        r#"["answer",3,"committed"]"#,
        Cause::Form,
        r#"form: "committed" wants its timestamp behind it"#,
    ),
    (
        InputKind::Trace,
        r#"["answer",3,"aborted",4]"#,
        Cause::Form,
        "form: 4 stands behind the last member of the step",
    ),
];

#[test]
fn sentences_of_other_commands_do_as_well(rt: HostRuntime) -> Result<(), Fail> {
    for (kind, line, cause, sentence) in OTHERS {
        let is_told = is_told(rt.alloc(), kind, cause, line, sentence)?;
        assert!(rt; is_told, "{line}");
    }
    Ok(())
}
