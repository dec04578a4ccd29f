//! The examples that the program prints, so that what help names is at hand where only the program
//! is.

/// An example.
#[derive(Clone, Copy, Debug)]
pub(crate) struct Sample {
    /// Its name, as help has it.
    pub name: &'static str,
    /// What it shows.
    pub about: &'static str,
    pub text: &'static str,
}

/// The names of the examples.
pub(crate) static SAMPLE_NAMES: [&str; 9] = [
    "commit_then_read.script",
    "push.script",
    "falls_back.script",
    "late_prewrite_commits.script",
    "write_skew.script",
    "transfers.run",
    "commit_then_read.trace",
    "lost_update.trace",
    "read_committed.history",
];

/// The examples, each as it stands under its name in crates/examples/data.
pub(crate) static SAMPLES: [Sample; 9] = [
    Sample {
        name: "commit_then_read.script",
        about: "One transaction and a reader",
        text: r#"["begin","A"]
["put","A","a","x"]
["declare","A","two-phase",10]
["prewrite","A"]
["draw","A"]
["commit","A"]
["finish","A"]
["begin","B"]
["get","B","a"]"#,
    },
    Sample {
        name: "push.script",
        about: "A reader that pushes a lock and need not wait",
        text: r#"["begin","A"]
["put","A","a","x"]
["put","A","b","y"]
["declare","A","two-phase",10]
["prewrite","A"]
["prewrite","A"]
["draw","A"]
["begin","B"]
["get","B","b"]
["resolve","B",5]
["get","B","b"]
["commit","A"]
["draw","A"]
["commit","A"]
["commit","A"]
["get","B","b"]
["finish","A"]"#,
    },
    Sample {
        name: "falls_back.script",
        about: "An async commit that falls back to two phases",
        text: r#"["begin","A"]
["put","A","a","x"]
["put","A","b","y"]
["declare","A","async",20,4]
["prewrite","A"]
["tick",4]
["begin","B"]
["get","B","b"]
["prewrite","A"]
["draw","A"]
["commit","A"]
["commit","A"]
["finish","A"]
["get","B","a"]
["get","B","b"]"#,
    },
    Sample {
        name: "late_prewrite_commits.script",
        about: "A prewrite that arrives late, and commits",
        text: r#"["regions",["b"]]
["begin","A"]
["put","A","a","x"]
["put","A","b","y"]
["declare","A","async",10]
["prewrite","A"]
["prewrite","A","hold","h"]
["stop","A"]
["begin","B"]
["get","B","a"]
["deliver","h"]
["resolve","B",100]
["get","B","a"]
["get","B","b"]
["resolve","B",100]
["get","B","b"]"#,
    },
    Sample {
        name: "write_skew.script",
        about: "What snapshot isolation allows",
        text: r#"["begin","A"]
["begin","B"]
["get","A","y"]
["get","B","x"]
["put","A","x","1"]
["put","B","y","1"]
["declare","A","two-phase",10]
["declare","B","two-phase",10]
["prewrite","A"]
["prewrite","B"]
["draw","A"]
["draw","B"]
["commit","A"]
["commit","B"]
["finish","A"]
["finish","B"]
["read","x",6]
["read","y",6]"#,
    },
    Sample {
        name: "transfers.run",
        about: "Transfers between accounts, for txkv run",
        text: r#"["regions",["m"]]
["seed","alice","30"]
["seed","zoe","12"]
["transfer","S","alice","zoe",25,"two-phase"]
["transfer","S","alice","zoe",25,"async"]
["transfer","S","zoe","bob",7,"async"]
["begin","S"]
["scan","S","a","zz",10]
["finish","S"]"#,
    },
    Sample {
        name: "commit_then_read.trace",
        about: "A trace that is a run of the machine",
        text: r#"["draw",3]
["begin",3]
["declare",3,[["a","put","x"]]]
["commit",3,4]
["draw",4]
["read",4,"a","x"]
["read",4,"b",null]"#,
    },
    Sample {
        name: "lost_update.trace",
        about: "A trace that is none",
        text: r#"["draw",1]
["begin",1]
["draw",2]
["begin",2]
["declare",1,[["a","put","x"]]]
["declare",2,[["a","lock"]]]
["draw",3]
["commit",2,3]
["draw",4]
["commit",1,4]"#,
    },
    Sample {
        name: "read_committed.history",
        about: "A history that is no snapshot isolation",
        text: r#"{"id":177,"type":"ok","ops":[["append",2,234]]}
{"id":198,"type":"ok","ops":[["r",2,[234]],["append",5,239]]}
{"id":199,"type":"ok","ops":[["r",2,[]],["append",5,237]]}
{"id":8708,"type":"ok","ops":[["r",2,[234]],["r",5,[239,237]]]}"#,
    },
];

/// The text of the example of this name, empty where there is none.
pub(crate) fn text_of_sample(name: &str) -> &'static str {
    match SAMPLES.iter().find(|sample| sample.name == name) {
        Some(sample) => sample.text,
        None => "",
    }
}
