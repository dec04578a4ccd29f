//! A script is played line by line, and what each line did is noted.
ghost use Rattle.std.specs.Prelude.{◌≡◌, ◌+◌, ◌<◌, ◌++◌, ◌∷◌, [], ℕ, List, Ok, Err, All, map, vec_len, length, IfOk, OnOk, IfNone, IfSome};
ghost use Rattle.tx_types.specs.declared.key.Key.{Key as KeyOf};
ghost use Rattle.tx_types.specs.declared.limits.TheConstants as limits;
ghost use Rattle.tx_cells.specs.Contents.{nothing_held};
ghost use Rattle.tx_types.specs.Keys.{AreRising};
ghost use Rattle.tx_evidence.specs.Lines.{bounds_of};
ghost use Rattle.tx_script.specs.Players.{IsPlayer};
ghost use Rattle.tx_film.specs.Films.{Films};
ghost use Rattle.tx_film.specs.Filmed.{Counted, AreShown, HasFilmed, StopsAt, Ended, Stands};

use crate::frame::{Film, Frame, KeyShown};
use crate::names::session_named;
use crate::places::places_of;
use std::alloc::{AllocError, Global};
use std::marker::Brand;
use tx_cells::{Families, Makes, make_families};
use tx_core::Body;
use tx_journal::{JournalId, Opened};
use tx_reply::ScriptReply;
use tx_script::{Player, SessionStage, bounds_in};
use tx_steps::{Delivery, Line, Program, Step};
use tx_text::{Broken, End, Parts, put_text};
use tx_types::limits::MAX_LIVE_SESSIONS;
use tx_types::{Cause, Key};

// Puts what stands on the key at this place behind what is shown.
fn show_at<J: JournalId, F: Families + Drop>(
    player: &mut Player<J, F>,
    keys: &[Key],
    place: usize,
    shown: &mut Vec<KeyShown>,
) -> Result<(), Broken>
    requires { IsPlayer J.bounds player.old }
    ensures player { IsPlayer J.bounds player.new }
    ensures same { OnOk result (Stands J.bounds player.old player.new) }
    ensures shows { OnOk result (AreShown J.bounds keys.now player.old.engine shown.old.items
        → AreShown J.bounds keys.now player.new.engine shown.new.items) }
{
    let Some(key) = keys.get(place) else {
        return Ok(());
    };
    let Ok(copy) = player.show_key(key) else {
        return Err(Broken::Memory);
    };
    shown.push(KeyShown {
        key: place,
        shown: copy,
    })?;
    Ok(())
}

// What stands on the keys at these places.
fn show_keys<J: JournalId, F: Families + Drop>(
    alloc: Global,
    player: &mut Player<J, F>,
    keys: &[Key],
    places: &[usize],
) -> Result<Vec<KeyShown>, Broken>
    requires { IsPlayer J.bounds player.old }
    ensures player { IsPlayer J.bounds player.new }
    ensures same { IfOk result (λ _. Stands J.bounds player.old player.new) }
    ensures shows { IfOk result (λ shown. AreShown J.bounds keys.now player.new.engine shown.items) }
{
    let mut shown = Vec::new(alloc);
    'places: for place in places {
        show_at(player, keys, *place, &mut shown)?;
    }
    Ok(shown)
}

// What the request asks that a line holds on its way, where it holds one: its reply says so.
fn held_by<J: JournalId, F: Families + Drop>(
    alloc: Global,
    player: &Player<J, F>,
    line: &[u8],
    reply: &ScriptReply,
) -> Result<Option<Body>, Broken> {
    if !matches!(reply, ScriptReply::Lost) {
        return Ok(None);
    }
    let mut parts = Parts::new();
    let Ok(said) = Line::read(alloc, 1, line, &mut parts)? else {
        return Ok(None);
    };
    let Some(Step::Send(_, _, Delivery::Held(name))) = said.step(Program::Simulate) else {
        return Ok(None);
    };
    match player.held_body(name) {
        Some(body) => match body.clone() {
            Ok(copy) => Ok(Some(copy)),
            Err(_) => Err(Broken::Memory),
        },
        None => Ok(None),
    }
}

// How many requests regions have taken, and how many steps of the machine there are.
fn counts_of<J: JournalId, F: Families + Drop>(
    player: &Player<J, F>,
) -> Result<(usize, usize), Broken>
    ensures { IfOk result (λ counts. Counted player.now.engine.network counts.0 counts.1) }
{
    match (player.takings(), player.count_steps()) {
        (Some(takings), Some(steps)) => Ok((takings.len(), steps)),
        _ => Err(Broken::Memory),
    }
}

// The places of the keys on which the requests that came behind so many may have changed something.
fn touched_since<J: JournalId, F: Families + Drop>(
    alloc: Global,
    player: &Player<J, F>,
    bounds: &[Key],
    keys: &[Key],
    before: usize,
) -> Result<Vec<usize>, Broken> {
    let takings = player.takings().unwrap_or_default();
    let came = takings.get(before..).unwrap_or_default();
    Ok(places_of(alloc, bounds, keys, came)?)
}

// The line by which a session of this name would draw.
fn draw_by(alloc: Global, name: &str) -> Result<Vec<u8>, AllocError> {
    let mut line = Vec::new(alloc);
    line.extend_from_slice(b"[\"draw\"")?;
    put_text(&mut line, name.as_bytes())?;
    line.extend_from_slice(b"]")?;
    Ok(line)
}

// How far the session is of the line that was played, where that is live: were it to draw next.
fn stage_then<J: JournalId, F: Families + Drop>(
    alloc: Global,
    player: &Player<J, F>,
    line: &[u8],
) -> Result<Option<SessionStage>, Broken>
    requires { IsPlayer J.bounds player.now }
{
    let mut parts = Parts::new();
    let Ok(said) = Line::read(alloc, 1, line, &mut parts)? else {
        return Ok(None);
    };
    let Some(step) = said.step(Program::Simulate) else {
        return Ok(None);
    };
    match session_named(&step) {
        Some(name) => player.stage_at(alloc, draw_by(alloc, name)?.as_slice()),
        None => Ok(None),
    }
}

// What is noted of the line that was played, before which so many requests had been taken.
fn frame_of<J: JournalId, F: Families + Drop>(
    alloc: Global,
    player: &mut Player<J, F>,
    bounds: &[Key],
    keys: &[Key],
    before: usize,
    line: &[u8],
    reply: ScriptReply,
) -> Result<Frame, Broken>
    requires { IsPlayer J.bounds player.old }
    ensures player { IsPlayer J.bounds player.new }
    ensures same { IfOk result (λ _. Stands J.bounds player.old player.new) }
    ensures reply { IfOk result (λ frame. frame.reply ≡ Ok reply) }
    ensures counted { IfOk result (λ frame. Counted player.old.engine.network frame.takings frame.steps) }
    ensures shows { IfOk result (λ frame. AreShown J.bounds keys.now player.new.engine frame.keys.items) }
{
    let (takings, steps) = counts_of(player)?;
    let places = touched_since(alloc, player, bounds, keys, before)?;
    let shown = show_keys(alloc, player, keys, places.as_slice())?;
    let held = held_by(alloc, player, line, &reply)?;
    let stage = stage_then(alloc, player, line)?;
    Ok(Frame {
        reply: Ok(reply),
        takings,
        steps,
        keys: shown,
        held,
        stage,
    })
}

// How far the session is of a line that is a fault of this cause, where that is why.
fn stage_of<J: JournalId, F: Families + Drop>(
    alloc: Global,
    player: &Player<J, F>,
    line: &[u8],
    cause: Cause,
) -> Result<Option<SessionStage>, Broken>
    requires { IsPlayer J.bounds player.now }
{
    match cause {
        Cause::Order => player.stage_at(alloc, line),
        _ => Ok(None),
    }
}

// What is noted of a line that is a fault.
fn fault_frame(alloc: Global, takings: usize, steps: usize, cause: Cause) -> Frame
    ensures reply { result.reply ≡ Err cause }
    ensures counts { (result.takings ≡ takings) × (result.steps ≡ steps) }
    ensures keys { result.keys.items ≡ [] }
{
    Frame {
        reply: Err(cause),
        takings,
        steps,
        keys: Vec::new(alloc),
        held: None,
        stage: None,
    }
}

// Plays a line and notes what it did; where it is a fault, its cause.
fn film_line<J: JournalId, F: Families + Drop>(
    alloc: Global,
    player: &mut Player<J, F>,
    bounds: &[Key],
    keys: &[Key],
    frames: &mut Vec<Frame>,
    line: &[u8],
) -> Result<Option<Cause>, Broken>
    requires player { IsPlayer J.bounds player.old }
    requires tries { player.old.left + length frames.old.items ≡ 4294967295 }
    requires number { player.old.number ≡ length frames.old.items }
    ensures player { IsPlayer J.bounds player.new }
    ensures goes { IfOk result (λ fault. IfNone fault ((lines : List (List ℕ))
        → HasFilmed J.bounds keys.now lines frames.old.items player.old
        → HasFilmed J.bounds keys.now (lines ++ line.now ∷ []) frames.new.items player.new)) }
    ensures tries { IfOk result (λ fault. IfNone fault (player.new.left + length frames.new.items ≡ 4294967295)) }
    ensures number { IfOk result (λ fault. IfNone fault (player.new.number ≡ length frames.new.items)) }
    ensures stops { IfOk result (λ fault. IfSome fault (λ cause. (lines : List (List ℕ))
        → HasFilmed J.bounds keys.now lines frames.old.items player.old
        → StopsAt J.bounds keys.now lines frames.old.items frames.new.items line.now cause player.new)) }
{
    let (takings, steps) = counts_of(player)?;
    match player.play(alloc, line)? {
        Ok(reply) => {
            let frame = frame_of(alloc, player, bounds, keys, takings, line, reply)?;
            frames.push(frame)?;
            Ok(None)
        }
        Err(cause) => {
            frames.push(fault_frame(alloc, takings, steps, cause))?;
            Ok(Some(cause))
        }
    }
}

// The film of a player that is done with: it played to the end, or to the fault that the last
// frame is.
fn film_of<J: JournalId, F: Families + Drop>(
    player: Player<J, F>,
    frames: Vec<Frame>,
    end: End,
    stage: Option<SessionStage>,
) -> Result<Film, Broken>
    requires player { IsPlayer J.bounds player }
    requires seats { J.seats ≡ length J.bounds + 2 + limits.MAX_LIVE_SESSIONS }
    ensures { IfOk result (λ film. (shown : List KeyOf) (lines : List (List ℕ))
        → Ended J.bounds shown lines frames.items end player → Films J.bounds shown lines film) }
{
    let Some(trace) = player.end_film() else {
        return Err(Broken::Memory);
    };
    match Film::new(frames, trace, end, stage) {
        Some(film) => Ok(film),
        None => Err(Broken::Memory),
    }
}

// Plays a script over a journal that was opened, and notes what each line did.
fn film_over<J: JournalId, F: Families + Drop>(
    alloc: Global,
    opened: Opened,
    families: Vec<F>,
    bounds: &[Key],
    keys: &[Key],
    lines: &[&[u8]],
) -> Result<Film, Broken>
    requires named { (opened.table ≡ J.table) × (opened.bounds ≡ J.bounds) × (opened.seats ≡ J.seats) }
    requires few { vec_len families ≡ length opened.bounds + 1 }
    requires seats { opened.seats ≡ length opened.bounds + 2 + limits.MAX_LIVE_SESSIONS }
    requires empty { All (λ f. F.content f ≡ (λ k. nothing_held)) families.items }
    ensures { IfOk result (λ film. Films opened.bounds keys.now (map (λ line. line.now) lines.now) film) }
{
    let mut player = Player::<J, F>::filmed(alloc, opened, families)?;
    let mut frames = Vec::new(alloc);
    'lines: for line in lines {
        if let Some(cause) = film_line(alloc, &mut player, bounds, keys, &mut frames, line)? {
            let stage = stage_of(alloc, &player, line, cause)?;
            return film_of(player, frames, End::Faulted, stage);
        }
    }
    film_of(player, frames, End::Well, None)
}

// The keys between the regions of a script.
fn bounds_by(alloc: Global, lines: &[&[u8]]) -> Result<Vec<Key>, Broken>
    ensures bounds { IfOk result (λ bounds. bounds.items ≡ bounds_of (map (λ line. line.now) lines.now)) }
    ensures rising { IfOk result (λ bounds. AreRising bounds.items) }
    ensures few { IfOk result (λ bounds. length bounds.items < limits.MAX_REGIONS) }
{
    match lines.first() {
        Some(line) => bounds_in(alloc, line),
        None => Ok(Vec::new(alloc)),
    }
}

// A copy of keys.
fn copy_of(alloc: Global, keys: &[Key]) -> Result<Vec<Key>, Broken> {
    let mut copy = Vec::new(alloc);
    'keys: for key in keys {
        let Ok(key) = key.clone() else {
            return Err(Broken::Memory);
        };
        copy.push(key)?;
    }
    Ok(copy)
}

/// Plays the lines of a script, up to a fault, and notes what each did; of these keys, which rise,
/// what stands on them. `Memory` where a growth was refused outside of a step's own calls.
pub fn film_lines<F: Families + Drop, M: Makes<F>>(
    alloc: Global,
    make: &M,
    keys: &[Key],
    lines: &[&[u8]],
) -> Result<Film, Broken>
    ensures { IfOk result (λ film. Films (bounds_of (map (λ line. line.now) lines.now)) keys.now
        (map (λ line. line.now) lines.now) film) }
{
    let bounds = bounds_by(alloc, lines)?;
    let Ok(families) = make_families::<F, M>(alloc, make, bounds.len() + 1) else {
        return Err(Broken::Memory);
    };
    let between = copy_of(alloc, bounds.as_slice())?;
    let Ok(opened) = Opened::new(alloc, bounds, MAX_LIVE_SESSIONS + 1) else {
        return Err(Broken::Memory);
    };
    film_over::<Brand, F>(alloc, opened, families, between.as_slice(), keys, lines)
}
