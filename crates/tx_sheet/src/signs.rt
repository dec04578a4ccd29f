//! The signs of a row: its arrows, circles, bars and diamonds, and the machine's steps.
ghost use Rattle.std.specs.Prelude.{◌≡◌, length, cond, map, IfOk, option_map};
ghost use Rattle.tx_film.specs.Films.{steps_at};
ghost use Rattle.tx_sheet.specs.Rows.{HasSigns};

use crate::arrows::{arrows_of, goes_beyond};
use crate::changes::changes_of;
use crate::machine::words_of;
use crate::reads::reads_of;
use crate::row::{Change, KeyRead, Target};
use crate::values::Values;
use std::alloc::{AllocError, Global};
use tx_cells::KeyVersions;
use tx_film::{Film, Frame};
use tx_types::Key;

/// A script that was played, of which a sheet is made: its film, the keys that are shown, and
/// whether the machine's steps are.
#[derive(Clone, Copy)]
pub(crate) struct Shown<'k> {
    pub keys: &'k [Key],
    pub film: &'k Film,
    pub machine: bool,
}

/// What a row shows of keys and of the machine.
#[derive(Drop)]
pub(crate) struct Signs {
    pub targets: Vec<Target>,
    pub goes_beyond: bool,
    pub reads: Vec<KeyRead>,
    pub changes: Vec<Change>,
    pub machine: Vec<String>,
}

// The steps of the machine in words, where they are shown.
fn machine_of(alloc: Global, of: Shown<'_>, place: usize) -> Result<Vec<String>, AllocError>
    ensures { IfOk result (λ words. length words.items
        ≡ cond of.entry.machine (length (steps_at of.entry.film.now place)) 0) }
{
    if of.machine {
        words_of(alloc, of.film.steps(place))
    } else {
        Ok(Vec::new(alloc))
    }
}

/// The signs of the line at this place, by its frame, where this was shown of keys last.
pub(crate) fn signs_of(
    alloc: Global,
    of: Shown<'_>,
    last: &[Option<&KeyVersions>],
    values: &mut Values,
    place: usize,
    frame: &Frame,
) -> Result<Signs, AllocError>
    ensures { IfOk result (λ signs. HasSigns of.entry.keys.now of.entry.film.now of.entry.machine
        (map (option_map (λ s. s.now)) last.now) frame.now.keys.items place
        signs.targets.items signs.goes_beyond signs.reads.items signs.changes.items (length signs.machine.items)) }
{
    let takings = of.film.takings(place);
    let shown = frame.keys.as_slice();
    let changes = changes_of(alloc, last, values, of.keys, takings, shown)?;
    let targets = arrows_of(alloc, of.keys, takings, changes.as_slice())?;
    let goes_beyond = goes_beyond(of.keys, takings);
    let reads = reads_of(alloc, of.keys, takings)?;
    let machine = machine_of(alloc, of, place)?;
    Ok(Signs {
        targets,
        goes_beyond,
        reads,
        changes,
        machine,
    })
}
