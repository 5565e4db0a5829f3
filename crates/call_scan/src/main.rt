//! Performs random lists of calls beside a plain model of them.
#![tactic(auto)]

mod model;
mod step;

use finder::{Outcome, Performance, Score, Terms, Told, perform};
use model::{CAPACITY, Due, Model, TRACKS};
use notation::{Pitch, Symbol};
use price::{Changes, ChangesThenSilence, Entry, Price};
use prng::Random;
use splitting::Piece;
use std::alloc::{AllocError, Global};
use step::{ROOM, Step, any_step, call_of, part, symbol_of};

const LISTS: u32 = 400;

const CALLS: u32 = 30;

const POOL: u32 = 40;

type Came = Outcome<Pitch, Changes, ChangesThenSilence>;

// Whether a fresh score gives the same answer.
fn is_answered<P: Price + PartialEq>(
    heap: Global,
    score: &Score<Pitch>,
    terms: &Terms,
    query: &[Pitch],
    told: &Told<P>,
) -> Result<bool, AllocError> {
    let nowhere = Entry {
        position: 0,
        place: 0,
        price: P::empty(),
    };
    let mut list = vec![in heap; Piece::default(); ROOM]?;
    let mut prices = vec![in heap; Option::<P>::None; ROOM]?;
    let mut window = vec![in heap; nowhere; ROOM]?;
    let mut steps = vec![in heap; 0u32; ROOM]?;
    let answer = score.find(
        terms,
        query,
        &mut list,
        &mut prices,
        &mut window,
        &mut steps,
    );
    Ok(answer.ok() == Some(told.answer))
}

// Whether a granted question or size is right.
fn is_told(heap: Global, model: &Model, query: &[Pitch], came: &Came) -> Result<bool, AllocError> {
    let Some(score) = model.score(heap)? else {
        return Ok(false);
    };
    let Some(terms) = model.terms() else {
        return Ok(false);
    };
    match came {
        Outcome::Size(size) => Ok(score.workspace_size(&terms, query).ok() == Some(*size)),
        Outcome::First(told) => is_answered(heap, &score, &terms, query, told),
        Outcome::Second(told) => is_answered(heap, &score, &terms, query, told),
        _ => Ok(false),
    }
}

// Whether the outcome of a call is what the model owes.
fn is_due(
    heap: Global,
    model: &Model,
    step: Step,
    query: &[Pitch],
    came: &Came,
) -> Result<bool, AllocError> {
    match (model.due(step, query), came) {
        (Due::NoCall, Outcome::NoCall) => Ok(true),
        (Due::Done, Outcome::Done) => Ok(true),
        (Due::Refused(number, place), Outcome::Refused(told)) => {
            Ok((told.number, told.place) == (number, place as u64))
        }
        (Due::Answer, _) => is_told(heap, model, query, came),
        _ => Ok(false),
    }
}

// How many outcomes of a list are not what the model owes.
fn unlike(
    heap: Global,
    pool: &[Pitch],
    steps: &[Step],
    outcomes: &[Came],
) -> Result<u32, AllocError> {
    let mut model = Model::new(heap);
    let mut count: u32 = 0;
    for (step, came) in steps.iter().zip(outcomes.iter()) {
        let symbols = part(pool, *step);
        if !is_due(heap, &model, *step, symbols, came)? {
            count = count.saturating_add(1);
        }
        if let Due::Done = model.due(*step, symbols) {
            model.take(*step, symbols, symbol_of(pool, *step))?;
        }
    }
    Ok(count)
}

// What comes of a list of calls.
fn outcomes_of<S: Symbol>(
    heap: Global,
    pool: &[S],
    steps: &[Step],
) -> Result<Vec<Outcome<S, Changes, ChangesThenSilence>>, AllocError> {
    let mut calls = Vec::new(heap);
    for step in steps {
        calls.push(call_of(pool, *step, symbol_of(pool, *step)))?;
    }
    let memory = vec![in heap; S::rest(); TRACKS * CAPACITY]?;
    let came = perform::<S, Changes, ChangesThenSilence>(heap, TRACKS, memory, &calls)?;
    let Performance {
        memory: _,
        outcomes,
    } = came;
    Ok(outcomes)
}

// Performs a list of calls; tells how many were unlike.
fn run_list(heap: Global, pool: &[Pitch], steps: &[Step]) -> Result<u32, AllocError> {
    let outcomes = outcomes_of(heap, pool, steps)?;
    if outcomes.len() != steps.len() {
        return Ok(1);
    }
    unlike(heap, pool, steps, &outcomes)
}

// Symbols at random, a few of them rests.
fn any_pool(heap: Global, random: &mut Random) -> Result<Vec<Pitch>, AllocError> {
    let codes = [60, 60, 62, 62, 64, 64, 64, 255];
    let mut pool = Vec::new(heap);
    for _ in 0..POOL {
        if let Some(symbol) = Pitch::read(codes[(random.below(8) % 8) as usize]) {
            pool.push(symbol)?;
        }
    }
    Ok(pool)
}

fn any_steps(heap: Global, random: &mut Random) -> Result<Vec<Step>, AllocError> {
    let mut steps = Vec::new(heap);
    for _ in 0..CALLS {
        steps.push(any_step(random, POOL))?;
    }
    Ok(steps)
}

fn run_lists(heap: Global) -> Result<u32, AllocError> {
    let mut random = Random::new(20_260_301);
    let mut count: u32 = 0;
    for _ in 0..LISTS {
        let pool = any_pool(heap, &mut random)?;
        let steps = any_steps(heap, &mut random)?;
        count = count.saturating_add(run_list(heap, &pool, &steps)?);
    }
    Ok(count)
}

fn main(rt: HostRuntime) -> anyhow::Result<()> {
    let count = run_lists(rt.alloc())?;
    let calls = LISTS * CALLS;
    println!(rt; "{LISTS} lists of calls: {calls} calls, {count} unlike")?;
    Ok(())
}
