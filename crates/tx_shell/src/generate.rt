//! A script by chance, as a command line asks for it.
use std::alloc::Global;
use std::io::Write;
use tx_command::GenerateOptions;
use tx_flat::FlatCells;
use tx_generate::{ModeChoice, Plain, Settings, generate};
use tx_text::{Broken, End};

/// `txkv generate`: the families on which a script is tried make no difference to it.
pub(crate) fn generate_script<W: Write>(
    alloc: Global,
    told: GenerateOptions,
    writer: &mut W,
) -> Result<End, Broken> {
    let settings = Settings {
        seed: told.seed,
        steps: told.steps,
        sessions: told.sessions,
        regions: told.regions,
        keys: told.keys,
        faults: told.faults,
        modes: match told.mode {
            Some(mode) => ModeChoice::Only(mode),
            None => ModeChoice::Both,
        },
    };
    generate::<FlatCells, _, _>(alloc, &Plain, settings, writer)
}
