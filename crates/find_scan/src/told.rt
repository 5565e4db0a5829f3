//! Whether what a question was told is right.

use super::case::Case;
use super::counted::Counted;
use super::exhaustive::Way;
use notation::Symbol;
use splitting::{Answer, Found, Piece, Place};

// What is in the list at a place before a question is asked.
pub(super) fn mark(at: usize) -> Piece {
    Piece {
        first: at.saturating_add(100),
        len: 200,
        track: 300,
        column: 400,
    }
}

// Whether the list is as it was from a place on.
pub(super) fn is_marked(list: &[Piece], from: usize) -> bool {
    list.iter()
        .enumerate()
        .skip(from)
        .all(|(at, piece)| *piece == mark(at))
}

// Whether each note of a piece matches under a shift.
fn lies<S: Symbol>(case: &Case<S>, piece: Piece, shift: i32) -> bool {
    let matches = |i: usize| {
        let note = case.note(piece.first.saturating_add(i));
        let symbol = case.symbol(piece.column.saturating_add(i), piece.track);
        note.zip(symbol)
            .is_some_and(|(a, b)| a.interval(b) == Some(shift))
    };
    piece.len > 0 && (0..piece.len).all(matches)
}

// Changes and silence.
#[derive(Clone, Copy)]
struct Cost {
    changes: u32,
    silence: u32,
}

// What pieces cost that are a splitting of the whole query under a shift.
fn cost_of<S: Symbol>(case: &Case<S>, pieces: &[Piece], shift: i32) -> Option<Cost> {
    let mut cost = Cost {
        changes: 0,
        silence: 0,
    };
    let mut note: usize = 1;
    let mut free: usize = 0;
    for piece in pieces {
        if piece.first != note || !lies(case, *piece, shift) {
            return None;
        }
        if note > 1 {
            let gap = piece.column.checked_sub(free)?;
            if gap > case.limit as usize {
                return None;
            }
            cost.changes = cost.changes.saturating_add(1);
            cost.silence = cost.silence.saturating_add(gap.min(5_000) as u32);
        }
        note = note.saturating_add(piece.len);
        free = piece.column.saturating_add(piece.len);
    }
    if note != case.query.len().saturating_add(1) {
        return None;
    }
    Some(cost)
}

// Whether the pieces told are a splitting of the price told, from the place told.
fn is_split<S: Symbol, P: Counted>(case: &Case<S>, found: Found<P>, list: &[Piece]) -> bool {
    let Some(pieces) = list.get(0..found.count) else {
        return false;
    };
    let Some(first) = pieces.first() else {
        return false;
    };
    let Some(cost) = cost_of(case, pieces, found.shift) else {
        return false;
    };
    let place = Place {
        column: first.column,
        track: first.track,
    };
    found.price.is(cost.changes, cost.silence) && place == found.place
}

// Whether price, first place and shift are those of the best way.
fn is_best<P: Counted>(found: Found<P>, best: Way) -> bool {
    found.price.is(best.changes, best.silence)
        && found.place == best.first
        && found.shift == best.shift
}

/// Whether an answer and the list of its pieces are right, by the best way.
pub(super) fn is_right<S: Symbol, P: Counted>(
    case: &Case<S>,
    best: Option<Way>,
    answer: Answer<P>,
    list: &[Piece],
) -> bool {
    match (answer, best) {
        (Answer::None, None) => is_marked(list, 0),
        (Answer::Found(found), Some(way)) => {
            is_best(found, way) && is_split(case, found, list) && is_marked(list, found.count)
        }
        _ => false,
    }
}
