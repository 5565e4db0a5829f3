//! The best of all splittings, found by trying each.
//!
//! A splitting is told by a code, a number of mixed radix: its last digit is the place of the first
//! note, and each digit before it tells of the next note whether it is handed over to, and its place.

use super::case::Case;
use notation::{Mode, Symbol};
use splitting::Place;

/// A splitting of the first notes of a query: its price, where it begins, where its last note lies,
/// and its transposition.
#[derive(Clone, Copy)]
pub(super) struct Way {
    pub(super) changes: u32,
    pub(super) silence: u32,
    pub(super) first: Place,
    pub(super) shift: i32,
    last: Place,
}

impl Way {
    // What ways are compared by: price, then column and track of the first note.
    fn rank(&self, silent: bool) -> (u32, u32, usize, usize) {
        let silence = if silent { self.silence } else { 0 };
        (self.changes, silence, self.first.column, self.first.track)
    }
}

// The place of a number below the number of places.
fn place_of<S: Symbol>(case: &Case<S>, number: usize) -> Place {
    let tracks = case.tracks.max(1);
    Place {
        column: (number / tracks).saturating_add(1),
        track: (number % tracks).saturating_add(1),
    }
}

// The interval from a note of the query, counted from 1, to the symbol at a place.
fn shift_at<S: Symbol>(case: &Case<S>, note: usize, place: Place) -> Option<i32> {
    case.note(note)?
        .interval(case.symbol(place.column, place.track)?)
}

// The first note at a place.
fn begun<S: Symbol>(case: &Case<S>, place: Place) -> Option<Way> {
    let shift = shift_at(case, 1, place)?;
    if case.mode == Mode::Untransposed && shift != 0 {
        return None;
    }
    Some(Way {
        changes: 0,
        silence: 0,
        first: place,
        shift,
        last: place,
    })
}

// A way with one note more, in the same piece.
fn gone_on(way: Way, place: Place) -> Option<Way> {
    if place.track != way.last.track || place.column != way.last.column.saturating_add(1) {
        return None;
    }
    Some(Way { last: place, ..way })
}

// A way with one note more, in a piece of its own.
fn handed_over(way: Way, place: Place, limit: u32) -> Option<Way> {
    let gap = place.column.checked_sub(way.last.column)?.checked_sub(1)?;
    if gap > limit as usize {
        return None;
    }
    Some(Way {
        changes: way.changes.saturating_add(1),
        silence: way.silence.saturating_add(gap.min(5_000) as u32),
        last: place,
        ..way
    })
}

// The way of a code, where it is one.
fn way_of<S: Symbol>(case: &Case<S>, code: usize) -> Option<Way> {
    let places = case.symbols.len().max(1);
    let mut way = begun(case, place_of(case, code % places))?;
    let mut rest = code / places;
    for note in 1..case.query.len() {
        let place = place_of(case, rest % places);
        if shift_at(case, note.saturating_add(1), place)? != way.shift {
            return None;
        }
        rest = rest / places;
        way = if rest % 2 == 0 {
            gone_on(way, place)?
        } else {
            handed_over(way, place, case.limit)?
        };
        rest = rest / 2;
    }
    Some(way)
}

// How many codes there are.
fn codes<S: Symbol>(case: &Case<S>) -> usize {
    let places = case.symbols.len();
    let mut count = places;
    for _ in 1..case.query.len() {
        count = count.saturating_mul(places).saturating_mul(2);
    }
    count
}

/// The cheapest way that begins earliest, by changes, and then by silence where that counts.
pub(super) fn best_way<S: Symbol>(case: &Case<S>, silent: bool) -> Option<Way> {
    (0..codes(case))
        .filter_map(|code| way_of(case, code))
        .min_by_key(|way| way.rank(silent))
}

// How many notes match how many places under a shift.
fn matches<S: Symbol>(case: &Case<S>, shift: i32) -> usize {
    let notes = case.query.len().max(1);
    (0..case.symbols.len().saturating_mul(case.query.len()))
        .filter(|code| {
            let place = place_of(case, *code / notes);
            let note = (*code % notes).saturating_add(1);
            shift_at(case, note, place) == Some(shift)
        })
        .count()
}

/// The most matches under one admitted shift of the first note.
pub(super) fn most_matches<S: Symbol>(case: &Case<S>) -> usize {
    (0..case.symbols.len())
        .filter_map(|number| begun(case, place_of(case, number)))
        .map(|way| matches(case, way.shift))
        .max()
        .unwrap_or(0)
}
