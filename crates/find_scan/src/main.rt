//! Runs the search against an exhaustive search over all splittings, on small random questions.
#![tactic(auto)]

mod case;
mod counted;
mod exhaustive;
mod tally;
mod told;

use case::Case;
use counted::Counted;
use exhaustive::{Way, best_way, most_matches};
use finder::{Room, Score, Terms};
use notation::{Mode, Pitch, PitchClass, Stroke, Symbol};
use price::{Changes, ChangesThenSilence, Entry, Price};
use prng::Random;
use search::QuestionFault;
use splitting::{Answer, Piece};
use std::alloc::{AllocError, Global};
use tally::Tally;
use told::{is_marked, is_right, mark};

const QUESTIONS: usize = 800;

// How many codes are drawn from, all of them near each other.
const CODES: usize = 4;

/// What a question was told or refused by, and the list that it was lent.
#[derive(Drop)]
struct Asked<P> {
    answer: Result<Answer<P>, QuestionFault>,
    list: Vec<Piece>,
}

// Asks with a list of marks and with sheets of these lengths.
fn ask<S: Symbol, P: Counted>(
    heap: Global,
    score: &Score<S>,
    terms: &Terms,
    query: &[S],
    room: Room,
) -> Result<Asked<P>, AllocError> {
    let nowhere = Entry {
        position: 0,
        place: 0,
        price: P::empty(),
    };
    let mut list: Vec<Piece> = (0..room.list).map(mark).collect(heap)?;
    let mut prices = vec![in heap; Option::<P>::None; room.prices]?;
    let mut window = vec![in heap; nowhere; room.window]?;
    let mut steps = vec![in heap; 0u32; room.steps]?;
    let answer = score.find(
        terms,
        query,
        &mut list,
        &mut prices,
        &mut window,
        &mut steps,
    );
    Ok(Asked { answer, list })
}

// Sheets as long as those, but for one that is one shorter.
fn one_shorter(enough: Room, which: usize) -> Room {
    match which % 3 {
        0 => Room {
            prices: enough.prices.saturating_sub(1),
            ..enough
        },
        1 => Room {
            window: enough.window.saturating_sub(1),
            ..enough
        },
        _ => Room {
            steps: enough.steps.saturating_sub(1),
            ..enough
        },
    }
}

// Whether a question was refused for a sheet, with this size, and its list is as it was.
fn is_turned_away<P>(asked: &Asked<P>, size: usize) -> bool {
    match &asked.answer {
        Ok(_) => false,
        Err(fault) => { *fault == QuestionFault::ShortSheet { size } && is_marked(&asked.list, 0) }
    }
}

// Whether the search does right by a question, with enough working memory and with too little.
fn agrees<S: Symbol, P: Counted>(
    heap: Global,
    case: &Case<S>,
    best: Option<Way>,
    number: usize,
) -> Result<bool, AllocError> {
    let size = most_matches(case);
    let Some(score) = case.score(heap)? else {
        return Ok(false);
    };
    let Some(terms) = case.terms() else {
        return Ok(false);
    };
    if score.workspace_size(&terms, &case.query).ok() != Some(size) {
        return Ok(false);
    }
    let enough = Room {
        list: case.query.len().saturating_add(number % 3),
        prices: size,
        window: size,
        steps: size,
    };
    let short = one_shorter(enough, number);
    let refused = ask::<S, P>(heap, &score, &terms, &case.query, short)?;
    if size > 0 && !is_turned_away(&refused, size) {
        return Ok(false);
    }
    let Asked { answer, list } = ask::<S, P>(heap, &score, &terms, &case.query, enough)?;
    match answer {
        Ok(told) => Ok(is_right(case, best, told, &list)),
        Err(_) => Ok(false),
    }
}

// Asks questions at random, each limit and mode in turn.
fn compare<S: Symbol, P: Counted>(
    heap: Global,
    seed: u64,
    codes: [u8; CODES],
) -> Result<Tally, AllocError> {
    let limits = [0, 1, 2, 4_095];
    let modes = [Mode::Untransposed, Mode::AnyTransposition];
    let mut random = Random::new(seed);
    let mut tally = Tally::default();
    for number in 0..QUESTIONS {
        let limit = limits[number % 4];
        let mode = modes[number / 4 % 2];
        let case = Case::<S>::draw(heap, &mut random, &codes, limit, mode)?;
        let best = best_way(&case, P::is_silent());
        let right = agrees::<S, P>(heap, &case, best, number)?;
        tally.count(best.is_some(), right);
    }
    Ok(tally)
}

fn main(rt: HostRuntime) -> anyhow::Result<()> {
    let heap = rt.alloc();
    let pitches = [60, 60, 62, 64];
    let tally = compare::<Pitch, Changes>(heap, 20_260_201, pitches)?;
    println!(rt; "pitch by changes: {tally}")?;
    let tally = compare::<Pitch, ChangesThenSilence>(heap, 20_260_202, pitches)?;
    println!(rt; "pitch by changes, then silence: {tally}")?;
    let classes = [0, 0, 1, 11];
    let tally = compare::<PitchClass, Changes>(heap, 20_260_203, classes)?;
    println!(rt; "pitch class by changes: {tally}")?;
    let tally = compare::<PitchClass, ChangesThenSilence>(heap, 20_260_204, classes)?;
    println!(rt; "pitch class by changes, then silence: {tally}")?;
    let strokes = [5, 6, 7, 7];
    let tally = compare::<Stroke, Changes>(heap, 20_260_205, strokes)?;
    println!(rt; "stroke by changes: {tally}")?;
    let tally = compare::<Stroke, ChangesThenSilence>(heap, 20_260_206, strokes)?;
    println!(rt; "stroke by changes, then silence: {tally}")?;
    Ok(())
}
