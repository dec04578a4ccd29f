//! Scripts by chance: how long they are, what they have, and that they are the same again.
use std::alloc::Global;
use std::test::Fail;
use tx_flat::FlatCells;
use tx_generate::{End, ModeChoice, Plain, Settings, generate};
use tx_script::simulate;
use tx_types::Mode;

// Shapes: sessions, regions, keys, faults.
static SHAPES: [(usize, u32, u32, u32, ModeChoice); 5] = [
    (4, 2, 4, 15, ModeChoice::Both),
    (1, 1, 1, 0, ModeChoice::Only(Mode::TwoPhase)),
    (9, 5, 3, 60, ModeChoice::Only(Mode::Async)),
    (256, 26, 26, 100, ModeChoice::Both),
    (3, 3, 2, 30, ModeChoice::Both),
];

fn settings(shape: usize, seed: u64, steps: u64) -> Settings {
    let (sessions, regions, keys, faults, modes) = match SHAPES.get(shape) {
        Some(shape) => *shape,
        None => (1, 1, 1, 0, ModeChoice::Both),
    };
    Settings {
        seed,
        steps,
        sessions,
        regions,
        keys,
        faults,
        modes,
    }
}

// The script of a shape.
fn script(alloc: Global, settings: Settings) -> Option<Vec<u8>> {
    let mut text = Vec::new(alloc);
    match generate::<FlatCells, _, _>(alloc, &Plain, settings, &mut text) {
        Ok(End::Well) => Some(text),
        _ => None,
    }
}

// How many lines a text has that have this in them.
fn count(text: &[u8], what: &str) -> usize {
    let Ok(text) = str::from_utf8(text) else {
        return 0;
    };
    text.lines().filter(|line| line.contains(what)).count()
}

// Whether a script ends well, with a reply a line.
fn ends_well(alloc: Global, text: &[u8]) -> bool {
    let mut replies = Vec::new(alloc);
    let mut reader = text;
    let end = simulate::<FlatCells, _, _, _>(alloc, &Plain, &mut reader, &mut replies, &mut None);
    end == Ok(End::Well) && count(replies.as_slice(), "[") == count(text, "[")
}

// Whether the script of a shape has as many lines as were asked for, ends well, and comes out the
// same again.
fn is_script(alloc: Global, settings: Settings) -> bool {
    let (Some(text), Some(again)) = (script(alloc, settings), script(alloc, settings)) else {
        return false;
    };
    count(text.as_slice(), "[") as u64 == settings.steps
        && text.as_slice() == again.as_slice()
        && ends_well(alloc, text.as_slice())
}

#[test]
fn shapes(rt: HostRuntime) -> Result<(), Fail> {
    for shape in 0..SHAPES.len() {
        for seed in 0..4 {
            assert!(rt;
                is_script(rt.alloc(), settings(shape, seed, 70)),
                "shape {shape}, seed {seed}"
            );
        }
    }
    Ok(())
}

// Each step and each delivery.
static WORDS: [&str; 27] = [
    "[\"begin\"",
    "[\"put\"",
    "[\"insert\"",
    "[\"delete\"",
    "[\"lock\"",
    "[\"get\"",
    "[\"scan\"",
    "two-phase",
    "async",
    "[\"prewrite\"",
    "[\"draw\"",
    "[\"commit\"",
    "[\"abort\"",
    "[\"heartbeat\"",
    "[\"finish\"",
    "[\"stop\"",
    "[\"resolve\"",
    "[\"deliver\"",
    "[\"read\"",
    "[\"versions\"",
    "[\"tick\"",
    "[\"gc\"",
    "[\"regions\"",
    "\"lose\"",
    "\"lose-reply\"",
    "\"repeat\"",
    "\"hold\"",
];

#[test]
fn each_step_comes(rt: HostRuntime) -> Result<(), Fail> {
    let text = script(rt.alloc(), settings(0, 7, 1500));
    for word in WORDS.iter() {
        let comes = text
            .as_ref()
            .is_some_and(|text| count(text.as_slice(), word) > 0);
        assert!(rt; comes, "{word}");
    }
    Ok(())
}

#[test]
fn no_request_is_lost(rt: HostRuntime) -> Result<(), Fail> {
    let text = script(rt.alloc(), settings(1, 7, 400));
    for word in [
        "\"lose",
        "\"repeat\"",
        "\"hold\"",
        "async",
        "deliver",
        "regions",
    ] {
        let none = text
            .as_ref()
            .is_some_and(|text| count(text.as_slice(), word) == 0);
        assert!(rt; none, "{word}");
    }
    Ok(())
}

// The name of the session that begins last.
fn last_session(text: &str) -> Option<&str> {
    let line = text
        .lines()
        .filter(|line| line.starts_with("[\"begin\","))
        .last()?;
    line.strip_prefix("[\"begin\",")?.strip_suffix("]")
}

// Whether the last session reads each of so many keys.
fn reads_all(text: &str, keys: u8) -> bool {
    let Some(name) = last_session(text) else {
        return false;
    };
    (0..keys).all(|number| {
        let key = b'a' + number % 26;
        text.lines().any(|line| {
            line.strip_prefix("[\"get\",")
                .and_then(|line| line.strip_prefix(name))
                .is_some_and(|rest| rest.as_bytes().get(2) == Some(&key))
        })
    })
}

#[test]
fn the_last_session_reads_every_key(rt: HostRuntime) -> Result<(), Fail> {
    for seed in 0..16 {
        let text = script(rt.alloc(), settings(0, seed, 70));
        let reads = text.as_ref().is_some_and(|text| {
            str::from_utf8(text.as_slice()).is_ok_and(|text| reads_all(text, 4))
        });
        assert!(rt; reads, "seed {seed}");
    }
    Ok(())
}

#[test]
fn few_lines(rt: HostRuntime) -> Result<(), Fail> {
    for steps in 0..4 {
        for shape in 0..SHAPES.len() {
            assert!(rt;
                is_script(rt.alloc(), settings(shape, 7, steps)),
                "shape {shape}, {steps} lines"
            );
        }
    }
    Ok(())
}

#[test]
fn seeds_differ(rt: HostRuntime) -> Result<(), Fail> {
    let first = script(rt.alloc(), settings(0, 1, 50));
    let second = script(rt.alloc(), settings(0, 2, 50));
    assert!(rt; first != second);
    Ok(())
}
