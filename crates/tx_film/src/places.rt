//! On which keys a request may have changed something.
use std::alloc::{AllocError, Global};
use tx_core::{Body, Target};
use tx_trace::Taking;
use tx_types::Key;

// The place of the region of a key.
fn region_of(bounds: &[Key], key: &Key) -> usize {
    bounds.iter().filter(|bound| **bound <= *key).count()
}

// Puts a place among places, unless it is there.
fn put_place(places: &mut Vec<usize>, place: usize) -> Result<(), AllocError> {
    if places.contains(&place) {
        return Ok(());
    }
    Ok(places.push(place)?)
}

// Puts the places of the keys of a region among places.
fn put_region(
    places: &mut Vec<usize>,
    bounds: &[Key],
    keys: &[Key],
    region: usize,
) -> Result<(), AllocError> {
    'keys: for (place, key) in keys.iter().enumerate() {
        if region_of(bounds, key) == region {
            put_place(places, place)?;
        }
    }
    Ok(())
}

// Puts the places of the keys on which a request may change something among places: its own key, or
// where it collects, all of its region. A scan and the other requests to a region change nothing.
fn put_touched(
    places: &mut Vec<usize>,
    bounds: &[Key],
    keys: &[Key],
    body: &Body,
) -> Result<(), AllocError> {
    match body {
        Body::Collect(collect) => put_region(places, bounds, keys, collect.region.get() as usize),
        _ => match body.target() {
            Target::Key(key) => match keys.binary_search(key) {
                Ok(place) => put_place(places, place),
                Err(_) => Ok(()),
            },
            Target::Range(_) | Target::Region(_) => Ok(()),
        },
    }
}

/// The places of the keys on which these requests may have changed something.
pub(crate) fn places_of(
    alloc: Global,
    bounds: &[Key],
    keys: &[Key],
    takings: &[Taking],
) -> Result<Vec<usize>, AllocError> {
    let mut places = Vec::new(alloc);
    'takings: for taking in takings {
        put_touched(&mut places, bounds, keys, &taking.body)?;
    }
    Ok(places)
}
