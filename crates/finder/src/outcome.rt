//! What comes of the calls of a list.

ghost use Rattle.std.specs.Prelude.{◌≡◌};
ghost use Rattle.finder.specs.Trying.{changed};

use super::score_fault::ScoreFault;
use book::Refusal;
use splitting::{Answer, Piece};

/// What a question is answered, with the list whose front holds the pieces.
#[derive(Debug, PartialEq, Eq, Drop)]
pub struct Told<P> {
    pub answer: Answer<P>,
    pub list: Vec<Piece>,
}

/// What comes of one call. A question is told at the price kind that it was asked at.
#[derive(Debug, PartialEq, Eq, Drop)]
pub enum Outcome<S, P, R> {
    /// A setting under an open trial, or an end where none is open: nothing was done.
    NoCall,
    Refused(Refusal),
    /// A change of the score or its terms was granted.
    Done,
    Size(usize),
    /// A list of symbols, its front the query transposed.
    Transposed(Vec<S>),
    First(Told<P>),
    Second(Told<R>),
}

impl<S, P, R> Outcome<S, P, R> {
    /// What comes of a change of the score by its result.
    pub(crate) fn of_change(change: Result<(), ScoreFault>) -> Outcome<S, P, R>
        ensures { result ≡ changed change }
    {
        change.map_or_else(
            |fault| Outcome::Refused(fault.refusal()),
            |()| Outcome::Done,
        )
    }
}

/// What comes of a list of calls: of the check of the memory, and of each call.
#[derive(Debug, PartialEq, Eq, Drop)]
pub struct Performance<S, P, R> {
    pub memory: Option<Refusal>,
    pub outcomes: Vec<Outcome<S, P, R>>,
}
