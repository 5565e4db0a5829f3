//! The calls of a list that ask, and what they are lent.
//!
//! A list is made of blank pieces or of rests, at most 64 of them, since no query has more notes. A
//! sheet is made of at most 4,194,304 entries, 64 times the symbols that a score can hold: no
//! workspace is greater.

ghost use Rattle.std.specs.Prelude.{◌≡◌, map, replicate, IfOk};
ghost use Rattle.notation.specs.Kind.{rest};
ghost use Rattle.finder.specs.Ledger.{Ledger, sizes, transposes, asks};
ghost use Rattle.finder.specs.Questions.{question};
ghost use Rattle.finder.specs.Trying.{Tried, CallTried, prices_of, under, AnsweredUnder};

use super::call::{PriceKind, Room};
use super::limit::Limit;
use super::outcome::{Outcome, Told};
use super::score::Score;
use super::session::Session;
use super::terms::Terms;
use book::Refusal;
use notation::Symbol;
use price::{Entry, Price};
use search::transposed;
use splitting::Piece;
use std::alloc::{AllocError, Global};

impl<S: Symbol> Session<S> {
    pub(crate) fn size<P: Price, R: Price>(&self, query: &[S]) -> Outcome<S, P, R>
        ensures { CallTried S.Symbol P.Price R.Price self.now (sizes (map S.byte query.now)) self.now result }
    {
        match self.score.workspace_size(&self.terms, query) {
            Ok(size) => Outcome::Size(size),
            Err(fault) => Outcome::Refused(fault.refusal()),
        }
    }

    pub(crate) fn ask<P: Price, R: Price>(
        &mut self,
        heap: Global,
        query: &[S],
        room: Room,
        at: PriceKind,
    ) -> Result<Outcome<S, P, R>, AllocError>
        ensures { IfOk result (CallTried S.Symbol P.Price R.Price self.old (asks (map S.byte query.now) room at) self.new) }
    {
        let limit = self.limit();
        // Stays: no rule covers a variant passed on as a function, whose result names both prices.
        match at {
            PriceKind::First => {
                match ask_under::<S, P>(heap, &self.score, &mut self.terms, limit, query, room)? {
                    Ok(told) => Ok(Outcome::First(told)),
                    Err(refusal) => Ok(Outcome::Refused(refusal)),
                }
            }
            PriceKind::Second => {
                match ask_under::<S, R>(heap, &self.score, &mut self.terms, limit, query, room)? {
                    Ok(told) => Ok(Outcome::Second(told)),
                    Err(refusal) => Ok(Outcome::Refused(refusal)),
                }
            }
        }
    }
}

// A list of so many rests.
fn rests<S: Symbol>(heap: Global, count: usize) -> Result<Vec<S>, AllocError>
    ensures { IfOk result (λ v. map S.byte v.items ≡ replicate count rest) }
{
    let mut list = Vec::new(heap);
    list.resize(count, S::rest())?;
    Ok(list)
}

pub(crate) fn transpose<S: Symbol, P: Price, R: Price>(
    heap: Global,
    query: &[S],
    by: i32,
    room: usize,
) -> Result<Outcome<S, P, R>, AllocError>
    ensures { IfOk result (λ o. (l : Ledger) → Tried S.kind S.byte (prices_of P.pricing P.meaning R.pricing R.meaning) l (transposes (map S.byte query.now) by room) l o) }
{
    let mut list = rests(heap, room.min(64))?;
    match transposed(query, by, &mut list) {
        Ok(()) => Ok(Outcome::Transposed(list)),
        Err(fault) => Ok(Outcome::Refused(fault.refusal())),
    }
}

// Asks with a list and sheets of these lengths.
fn ask<S: Symbol, P: Price>(
    heap: Global,
    score: &Score<S>,
    terms: &Terms,
    query: &[S],
    room: Room,
) -> Result<Result<Told<P>, Refusal>, AllocError>
    ensures { IfOk result (AnsweredUnder P.pricing P.meaning (question S.kind S.byte score.now terms.now query.now) room) }
{
    let blank = Piece {
        first: 0,
        len: 0,
        track: 0,
        column: 0,
    };
    let nowhere = Entry {
        position: 0,
        place: 0,
        price: P::empty(),
    };
    let mut list = vec![in heap; blank; room.list.min(64)]?;
    let mut prices = vec![in heap; Option::<P>::None; room.prices.min(4194304)]?;
    let mut window = vec![in heap; nowhere; room.window.min(4194304)]?;
    let mut steps = vec![in heap; 0u32; room.steps.min(4194304)]?;
    match score.find(
        terms,
        query,
        &mut list,
        &mut prices,
        &mut window,
        &mut steps,
    ) {
        Ok(answer) => Ok(Ok(Told { answer, list })),
        Err(fault) => Ok(Err(fault.refusal())),
    }
}

// Asks in a trial of a limit, which ends with the answer.
fn ask_under<S: Symbol, P: Price>(
    heap: Global,
    score: &Score<S>,
    terms: &mut Terms,
    limit: Limit,
    query: &[S],
    room: Room,
) -> Result<Result<Told<P>, Refusal>, AllocError>
    ensures told { IfOk result (AnsweredUnder P.pricing P.meaning (under S.kind S.byte score.now limit.value terms.old.mode query.now) room) }
    ensures limit { terms.new.limit ≡ terms.old.limit }
    ensures mode { terms.new.mode ≡ terms.old.mode }
{
    let trial = terms.begin(limit);
    ask(heap, score, trial.terms(), query, room)
}
