//! Nine small questions and their answers.

use super::limit::Limit;
use super::limit_fault::LimitFault;
use super::score::Score;
use super::terms::Terms;
use notation::{Mode, Pitch, PitchClass, Stroke, Symbol};
use price::{Changes, ChangesThenSilence, Entry, Price};
use splitting::{Answer, Found, Piece, Place};
use std::alloc::Global;
use std::test::*;

/// Puts the columns last whose bytes stand one after another.
fn spell<S: Symbol>(score: &mut Score<S>, column: &[S], bytes: &[u8]) -> Result<(), Fail> {
    let mut track = column.len();
    for b in bytes {
        if track >= column.len() {
            score.append(column)?;
            track = 0;
        }
        track += 1;
        let symbol = S::read(*b).ok_or(*b)?;
        score.correct(score.columns(), track, symbol)?;
    }
    Ok(())
}

/// A question's answer and the front of its list.
#[derive(Clone, Copy, Debug, PartialEq, Eq)]
struct Told<P> {
    answer: Answer<P>,
    first: Piece,
    second: Piece,
}

const NOTHING: Piece = Piece {
    first: 0,
    len: 0,
    track: 0,
    column: 0,
};

/// What is told of a query, with a list of four pieces and steps of sixteen, where the question is
/// not refused.
fn ask<S: Symbol, P: Price>(
    score: &Score<S>,
    terms: &Terms,
    query: &[S],
    prices: &mut [Option<P>],
    window: &mut [Entry<P>],
) -> Option<Told<P>> {
    let mut list = [NOTHING; 4];
    let mut steps = [0u32; 16];
    let answer = score.find(terms, query, &mut list, prices, window, &mut steps);
    Some(Told {
        answer: answer.ok()?,
        first: list[0],
        second: list[1],
    })
}

/// The answer by changes.
fn by_changes<S: Symbol>(score: &Score<S>, terms: &Terms, query: &[S]) -> Option<Told<Changes>> {
    let mut prices = [None; 16];
    let mut window = [entry(Changes::empty()); 16];
    ask(score, terms, query, &mut prices, &mut window)
}

fn entry<P: Price>(price: P) -> Entry<P> {
    Entry {
        position: 0,
        place: 0,
        price,
    }
}

/// Nothing was found, and the list is as it was.
const NO_ANSWER: Option<Told<Changes>> = Some(Told {
    answer: Answer::None,
    first: NOTHING,
    second: NOTHING,
});

/// One piece was found, from its place on, under a shift.
fn one(shift: i32, piece: Piece) -> Option<Told<Changes>> {
    found(Changes::empty(), 1, shift, piece, NOTHING)
}

/// Two pieces were found, with one change, from the place of the first on, under no shift.
fn two(first: Piece, second: Piece) -> Option<Told<Changes>> {
    found(Changes::empty().charged(0), 2, 0, first, second)
}

fn found<P>(price: P, count: usize, shift: i32, first: Piece, second: Piece) -> Option<Told<P>> {
    let place = Place {
        column: first.column,
        track: first.track,
    };
    Some(Told {
        answer: Answer::Found(Found {
            price,
            count,
            shift,
            place,
        }),
        first,
        second,
    })
}

fn piece(first: usize, len: usize, track: usize, column: usize) -> Piece {
    Piece {
        first,
        len,
        track,
        column,
    }
}

fn terms(limit: u32, mode: Mode) -> Result<Terms, LimitFault> {
    let mut terms = Terms::new();
    terms.set(Limit::new(limit)?, mode);
    Ok(terms)
}

/// Track 1: 60 62 64 65 and two rests. Track 2: two rests and 48 50 72 74.
fn two_tracks(heap: Global) -> Result<Score<Pitch>, Fail> {
    let mut score = Score::new(2, vec![in heap; Pitch::rest(); 12]?);
    let bytes = [60, 255, 62, 255, 64, 48, 65, 50, 255, 72, 255, 74];
    spell(&mut score, &[Pitch::rest(); 2], &bytes)?;
    Ok(score)
}

fn pitch(byte: u8) -> Result<Pitch, u8> {
    Pitch::read(byte).ok_or(byte)
}

#[test]
fn over_two_tracks(rt: HostRuntime) -> Result<(), Fail> {
    let score = two_tracks(rt.alloc())?;
    let query = [pitch(62)?, pitch(64)?, pitch(65)?, pitch(72)?];
    let told = by_changes(&score, &Terms::new(), &query);
    assert_eq!(rt; told, two(piece(1, 3, 1, 2), piece(4, 1, 2, 5)));
    let query = [pitch(65)?, pitch(74)?];
    let told = by_changes(&score, &terms(1, Mode::Untransposed)?, &query);
    assert_eq!(rt; told, two(piece(1, 1, 1, 4), piece(2, 1, 2, 6)));
    assert_eq!(rt; by_changes(&score, &Terms::new(), &query), NO_ANSWER);
    let all = terms(4095, Mode::Untransposed)?;
    assert_eq!(rt;
        by_changes(&score, &all, &[pitch(64)?, pitch(48)?]),
        NO_ANSWER
    );
    Ok(())
}

#[test]
fn transposed_over_two_tracks(rt: HostRuntime) -> Result<(), Fail> {
    let score = two_tracks(rt.alloc())?;
    let any = terms(0, Mode::AnyTransposition)?;
    let told = by_changes(&score, &any, &[pitch(61)?]);
    assert_eq!(rt; told, one(-1, piece(1, 1, 1, 1)));
    assert_eq!(rt; by_changes(&score, &Terms::new(), &[pitch(61)?]), NO_ANSWER);
    let told = by_changes(&score, &any, &[pitch(72)?, pitch(74)?]);
    assert_eq!(rt; told, one(-12, piece(1, 2, 1, 1)));
    Ok(())
}

#[test]
fn pitch_classes_go_round(rt: HostRuntime) -> Result<(), Fail> {
    let rest = PitchClass::rest();
    let mut score = Score::new(1, vec![in rt.alloc(); rest; 2]?);
    spell(&mut score, &[rest], &[11, 0])?;
    let any = terms(0, Mode::AnyTransposition)?;
    let query = [
        PitchClass::read(0).ok_or(0u8)?,
        PitchClass::read(1).ok_or(1u8)?,
    ];
    let told = by_changes(&score, &any, &query);
    assert_eq!(rt; told, one(11, piece(1, 2, 1, 1)));
    Ok(())
}

#[test]
fn no_columns(rt: HostRuntime) -> Result<(), Fail> {
    let score = Score::new(1, vec![in rt.alloc(); Pitch::rest(); 2]?);
    let any = terms(0, Mode::AnyTransposition)?;
    assert_eq!(rt; by_changes(&score, &any, &[pitch(60)?]), NO_ANSWER);
    Ok(())
}

#[test]
fn strokes_stay(rt: HostRuntime) -> Result<(), Fail> {
    let rest = Stroke::rest();
    let mut score = Score::new(1, vec![in rt.alloc(); rest; 2]?);
    spell(&mut score, &[rest], &[5, 6])?;
    let any = terms(0, Mode::AnyTransposition)?;
    let query = [Stroke::read(6).ok_or(6u8)?, Stroke::read(7).ok_or(7u8)?];
    assert_eq!(rt; by_changes(&score, &any, &query), NO_ANSWER);
    Ok(())
}

#[test]
fn hand_over_without_silence(rt: HostRuntime) -> Result<(), Fail> {
    let rest = Pitch::rest();
    let mut score = Score::new(2, vec![in rt.alloc(); rest; 6]?);
    spell(&mut score, &[rest; 2], &[60, 255, 255, 64, 64, 255])?;
    let one = terms(1, Mode::Untransposed)?;
    let mut prices = [None; 16];
    let mut window = [entry(ChangesThenSilence::empty()); 16];
    let query = [pitch(60)?, pitch(64)?];
    let told = ask(&score, &one, &query, &mut prices, &mut window);
    let change = ChangesThenSilence::empty().charged(0);
    assert_eq!(rt; change.silence(), 0);
    assert_eq!(rt;
        told,
        found(change, 2, 0, piece(1, 1, 1, 1), piece(2, 1, 2, 2))
    );
    Ok(())
}
