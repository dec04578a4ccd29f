//! Runs, over both families.
mod gates;
mod refusals;
mod rendezvous;
mod streams;
mod transfers;

use std::alloc::Global;
use std::sync::Wait;
use std::test::Fail;
use std::thread::Threads;
use tx_cells::Fresh;
use tx_flat::FlatCells;
use tx_nested::NestedCells;
use tx_run::{Plain, RunResult, Settings, run_script};
use tx_sched::Open;
use tx_text::{Broken, End};

// Plays a script over these families, and writes what it is answered.
fn run<F: Fresh + Send + Drop, R: Threads + Wait + Sync + Send + Clone + Drop>(
    rt: &R,
    alloc: Global,
    settings: Settings,
    input: &[u8],
    output: &mut Vec<u8>,
) -> Result<(End, Option<RunResult>), Broken> {
    let mut reader = input;
    run_script::<F, _, _, _, _, _>(rt, alloc, settings, &Plain, &Open, &mut reader, output)
}

// Whether a script ends so, and writes just this.
fn writes<F: Fresh + Send + Drop, R: Threads + Wait + Sync + Send + Clone + Drop>(
    rt: &R,
    alloc: Global,
    (script, end, wanted): (&str, End, &str),
) -> bool {
    let mut text = Vec::new(alloc);
    let ended = match run::<F, R>(rt, alloc, Settings::new(2), script.as_bytes(), &mut text) {
        Ok((end, played)) => {
            drop(played);
            Some(end)
        }
        Err(_) => None,
    };
    let same = ended == Some(end) && text.as_slice() == wanted.as_bytes();
    drop(text);
    same
}

static ALONE: [(&str, End, &str); 15] = [
    ("", End::Well, "[\"outcomes\",0,0,0,0]\n[\"total\",0]\n"),
    (
        "[\"begin\",\"A\"]\n[",
        End::Faulted,
        "[2,\"E16\",\"json\"]\n",
    ),
    ("[\"tick\",1]\n", End::Faulted, "[1,\"E16\",\"form\"]\n"),
    (
        "[\"seed\",\"a\",\"1\"]\n[\"regions\",[\"b\"]]\n",
        End::Faulted,
        "[2,\"E16\",\"form\"]\n",
    ),
    (
        "[\"regions\",[\"b\"]]\n[\"seed\",\"a\",\"100\"]\n[\"seed\",\"\",\"1\"]\n[\"seed\",\"b\",\"x\"]\n",
        End::Well,
        "[1,\"regions\",2]\n[2,\"ok\"]\n[3,\"E13\"]\n[4,\"ok\"]\n[\"outcomes\",0,0,0,0]\n[\"total\",100]\n",
    ),
    (
        "[\"seed\",\"a\",\"30\"]\n[\"transfer\",\"A\",\"a\",\"b\",31,\"async\"]\n[\"transfer\",\"A\",\"a\",\"b\",30,\"async\"]\n",
        End::Well,
        "[1,\"ok\"]\n[2,\"outcome\",\"read-only\"]\n[3,\"outcome\",\"committed\",7]\n[\"outcomes\",1,0,0,1]\n[\"total\",30]\n",
    ),
    (
        "[\"seed\",\"a\",\"999999999999999\"]\n[\"seed\",\"b\",\"1\"]\n[\"transfer\",\"A\",\"b\",\"a\",1,\"two-phase\"]\n",
        End::Well,
        "[1,\"ok\"]\n[2,\"ok\"]\n[3,\"outcome\",\"read-only\"]\n[\"outcomes\",0,0,0,1]\n[\"total\",1000000000000000]\n",
    ),
    (
        "[\"seed\",\"a\",\"1000000000000000\"]\n[\"seed\",\"b\",\"+1\"]\n[\"transfer\",\"A\",\"b\",\"a\",1,\"two-phase\"]\n",
        End::Well,
        "[1,\"ok\"]\n[2,\"ok\"]\n[3,\"outcome\",\"read-only\"]\n[\"outcomes\",0,0,0,1]\n[\"total\",0]\n",
    ),
    (
        "[\"begin\",\"A\"]\n[\"begin\",\"A\"]\n[\"stop\",\"A\"]\n",
        End::Faulted,
        "[1,\"start\",1]\n[2,\"E16\",\"name\"]\n[\"outcomes\",0,0,0,0]\n[\"total\",0]\n",
    ),
    (
        "[\"begin\",\"A\"]\n[\"transfer\",\"A\",\"a\",\"b\",1,\"async\"]\n[\"stop\",\"A\"]\n",
        End::Faulted,
        "[1,\"start\",1]\n[2,\"E16\",\"order\"]\n[\"outcomes\",0,0,0,0]\n[\"total\",0]\n",
    ),
    (
        "[\"begin\",\"A\"]\n[\"transfer\",\"A\",\"\",\"b\",1,\"async\"]\n",
        End::Faulted,
        "[1,\"start\",1]\n[2,\"E16\",\"order\"]\n[\"outcomes\",0,0,0,0]\n[\"total\",0]\n",
    ),
    (
        "[\"transfer\",\"A\",\"\",\"b\",1,\"async\"]\n[\"transfer\",\"A\",\"b\",\"\",1,\"async\"]\n[\"transfer\",\"A\",\"a\",\"b\",1,\"two-phase\"]\n[\"transfer\",\"\",\"a\",\"b\",1,\"async\"]\n",
        End::Faulted,
        "[1,\"E13\"]\n[2,\"E13\"]\n[3,\"outcome\",\"read-only\"]\n[4,\"E16\",\"name\"]\n[\"outcomes\",0,0,0,1]\n[\"total\",0]\n",
    ),
    (
        "[\"begin\",\"A\"]\n[\"put\",\"A\",\"a\",\"5\"]\n[\"declare\",\"A\",\"two-phase\",10]\n[\"prewrite\",\"A\"]\n[\"draw\",\"A\"]\n[\"commit\",\"A\"]\n[\"finish\",\"A\"]\n[\"begin\",\"A\"]\n[\"scan\",\"A\",\"a\",\"z\",10]\n[\"stop\",\"A\"]\n",
        End::Well,
        "[1,\"start\",1]\n[2,\"ok\"]\n[3,\"ok\"]\n[4,\"prewritten\",0]\n[5,\"drawn\",3]\n[6,\"committed\",3]\n[7,\"outcome\",\"committed\",3]\n[8,\"start\",4]\n[9,\"rows\",[[\"a\",\"5\"]]]\n[10,\"ok\"]\n[\"outcomes\",1,0,0,0]\n[\"total\",5]\n",
    ),
    (
        "[\"begin\",\"A\"]\n[\"put\",\"A\",\"a\",\"5\"]\n[\"put\",\"A\",\"b\",\"6\"]\n[\"declare\",\"A\",\"async\",10]\n[\"prewrite\",\"A\"]\n[\"stop\",\"A\"]\n[\"begin\",\"A\"]\n[\"get\",\"A\",\"a\"]\n[\"resolve\",\"A\",100]\n[\"get\",\"A\",\"a\"]\n",
        End::Well,
        "[1,\"start\",1]\n[2,\"ok\"]\n[3,\"ok\"]\n[4,\"ok\"]\n[5,\"prewritten\",3]\n[6,\"ok\"]\n[7,\"start\",3]\n[8,\"E1\",\"a\",1,\"a\",3,\"async\"]\n[9,\"status\",\"aborted\"]\n[10,\"none\"]\n[\"outcomes\",0,0,0,0]\n[\"total\",0]\n",
    ),
    (
        "[\"begin\",\"A\"]\n[\"insert\",\"A\",\"a\",\"7\"]\n[\"insert\",\"A\",\"a\",\"8\"]\n[\"declare\",\"A\",\"two-phase\",10]\n[\"prewrite\",\"A\"]\n[\"draw\",\"A\"]\n[\"commit\",\"A\"]\n[\"finish\",\"A\"]\n[\"begin\",\"A\"]\n[\"insert\",\"A\",\"a\",\"9\"]\n[\"declare\",\"A\",\"two-phase\",10]\n[\"prewrite\",\"A\"]\n[\"abort\",\"A\"]\n[\"abort\",\"A\"]\n[\"finish\",\"A\"]\n[\"begin\",\"A\"]\n[\"delete\",\"A\",\"a\"]\n[\"insert\",\"A\",\"a\",\"6\"]\n[\"get\",\"A\",\"a\"]\n[\"stop\",\"A\"]\n",
        End::Well,
        "[1,\"start\",1]\n[2,\"ok\"]\n[3,\"E17\"]\n[4,\"ok\"]\n[5,\"prewritten\",0]\n[6,\"drawn\",3]\n[7,\"committed\",3]\n[8,\"outcome\",\"committed\",3]\n[9,\"start\",4]\n[10,\"ok\"]\n[11,\"ok\"]\n[12,\"E17\"]\n[13,\"rolled-back\"]\n[14,\"done\"]\n[15,\"outcome\",\"aborted\"]\n[16,\"start\",6]\n[17,\"ok\"]\n[18,\"ok\"]\n[19,\"value\",\"6\"]\n[20,\"ok\"]\n[\"outcomes\",1,1,0,0]\n[\"total\",7]\n",
    ),
];

#[test]
fn one_session(rt: HostRuntime) -> Result<(), Fail> {
    for row in ALONE {
        let script = row.0;
        assert!(rt;
            writes::<FlatCells, _>(&rt, rt.alloc(), row),
            "{script}, over flat maps"
        );
        assert!(rt;
            writes::<NestedCells, _>(&rt, rt.alloc(), row),
            "{script}, over nested maps"
        );
    }
    Ok(())
}
