//! Settings, trials and a question in one list of calls.

use super::call::{Call, PriceKind, Room};
use super::outcome::{Outcome, Performance};
use super::performing::perform;
use book::{Layer, Refusal};
use notation::{Mode, Pitch, Symbol};
use price::{Changes, ChangesThenSilence};
use splitting::Answer;
use std::alloc::{AllocError, Global};
use std::test::*;

const ROOM: Room = Room {
    list: 64,
    prices: 8,
    window: 8,
    steps: 8,
};

// Stays: a list of calls is made at any kind, since at one with an invariant no rule covers it.
/// Performs settings and trials, with a question in one of them, on a score of two tracks.
fn performed<'a, S: Symbol>(
    heap: Global,
    memory: Vec<S>,
    first: &'a [S],
    second: &'a [S],
    query: &'a [S],
) -> Result<Performance<S, Changes, ChangesThenSilence>, AllocError> {
    let mode = Mode::AnyTransposition;
    let at = PriceKind::First;
    let mut calls = Vec::new(heap);
    calls.push(Call::Append(first))?;
    calls.push(Call::Append(second))?;
    calls.push(Call::Set { limit: 1, mode })?;
    calls.push(Call::Begin { limit: 4096 })?;
    calls.push(Call::End)?;
    calls.push(Call::Begin { limit: 0 })?;
    calls.push(Call::Set { limit: 2, mode })?;
    calls.push(Call::Ask {
        query,
        room: ROOM,
        at,
    })?;
    calls.push(Call::End)?;
    perform(heap, 2, memory, &calls)
}

#[test]
fn trials_in_turn(rt: HostRuntime) -> Result<(), Fail> {
    let rest = Pitch::rest();
    let c = Pitch::read(60).ok_or(60u8)?;
    let d = Pitch::read(62).ok_or(62u8)?;
    let memory = vec![in rt.alloc(); rest; 6]?;
    let came = performed(rt.alloc(), memory, &[c, rest], &[rest, d], &[c, d])?;
    assert_eq!(rt; came.memory, None);
    assert_eq!(rt; came.outcomes.len(), 9);
    let refused = Refusal {
        number: 16,
        place: 4096,
        layer: Layer::Limit,
    };
    let settings = [
        Outcome::Done,
        Outcome::Done,
        Outcome::Done,
        Outcome::Refused(refused),
        Outcome::NoCall,
        Outcome::Done,
        Outcome::NoCall,
    ];
    for (outcome, due) in came.outcomes.iter().zip(&settings) {
        assert_eq!(rt; outcome, due);
    }
    let Outcome::First(told) = &came.outcomes[7] else {
        return Err(Fail::new("the question was not answered"));
    };
    let Answer::Found(found) = told.answer else {
        return Err(Fail::new("the query was not found"));
    };
    assert_eq!(rt; (found.count, found.place.column, found.shift), (2, 1, 0));
    assert_eq!(rt; came.outcomes[8], Outcome::Done);
    Ok(())
}
