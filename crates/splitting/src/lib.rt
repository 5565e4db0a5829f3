//! What it is to split a query into pieces that lie in a score, and the mathematics of it.
//!
//! The definitions stand in `specs/`, to be read in this order: `Score` (scores, queries, what is
//! asked), `Splitting` (pieces, hand-overs, gaps, prices) and `Answer` (ways, and what an answer
//! must say). `Minimum` states the same problem in other terms, and `Rest` note by note. The
//! functions below do nothing: each has theorems on these definitions for its contract.
#![tactic(auto)]

ghost use Rattle.splitting.specs.AnswerLaws.{AnswersFromRests, AnswersUnique, GrowthHarmless, TransposedAlike};
ghost use Rattle.splitting.specs.Examples.{Examples};
ghost use Rattle.splitting.specs.Laws.{Gaps, TwoViews, SplittingsKept, SplittingsBounded, LeastRests, Farther};
ghost use Rattle.splitting.specs.Minimum.{FewestPieces, ChangesCounted};

use price::Price;

/// Where a note lies: its column and its track, both counted from 1.
#[derive(Clone, Copy, Debug, Default, PartialEq, Eq)]
pub struct Place {
    pub column: usize,
    pub track: usize,
}

/// A part of a query that lies unbroken on one track: the first of its notes, how many they are,
/// the track, and the column of the first. Notes, tracks and columns count from 1.
#[derive(Clone, Copy, Debug, Default, PartialEq, Eq)]
pub struct Piece {
    pub first: usize,
    pub len: usize,
    pub track: usize,
    pub column: usize,
}

/// What is told of a way that was found: its price, the number of its pieces, its transposition and
/// where it begins.
#[derive(Clone, Copy, Debug, PartialEq, Eq)]
pub struct Found<P> {
    pub price: P,
    pub count: usize,
    pub shift: i32,
    pub place: Place,
}

// Stays: the rules of the project name an answer with none and found as its cases.
/// What a question answers.
#[derive(Clone, Copy, Debug, PartialEq, Eq)]
pub enum Answer<P> {
    None,
    Found(Found<P>),
}

/// The gap of a hand-over is at most the columns between, adds up by way of a column that sounds,
/// and stays as it is when columns are appended.
pub fn laws_of_gaps() -> u8
    ensures { Gaps }
{
    0
}

/// Splittings piece by piece and note by note are one thing with one price. Appended columns, a
/// raised limit and a transposed query keep them, and the laws of prices apply to them.
pub fn laws_of_splittings<P: Price>() -> u8
    ensures views { TwoViews P.pricing }
    ensures kept { SplittingsKept P.pricing }
    ensures bounded { SplittingsBounded P.pricing }
{
    0
}

/// Price, first place and shift of an answer are settled by its question. Appending columns and
/// raising the limit never loses what was found nor makes it dearer, and a transposed query is found
/// at the same price and place.
pub fn laws_of_answers<P: Price>() -> u8
    ensures unique { AnswersUnique P.pricing }
    ensures harmless { GrowthHarmless P.pricing }
    ensures alike { TransposedAlike P.pricing }
{
    0
}

/// What a search relies on: the least rest of a note from those of the next; that an entry once no
/// dearer than another stays so as the hand-over comes from farther away; and the answer from the
/// rests of the first note.
pub fn least_rest<P: Price>() -> u8
    ensures step { LeastRests P.pricing }
    ensures farther { Farther P.pricing }
    ensures answer { AnswersFromRests P.pricing }
{
    0
}

/// The ways are the solutions of the minimum splitting problem, and the number of pieces told by
/// changes, or by changes and then silence, is the smallest. Both prices are what they are called.
pub fn fewest_pieces() -> u8
    ensures fewest { FewestPieces }
    ensures counted { ChangesCounted }
{
    0
}

/// Nine small questions and their whole answers.
pub fn nine_examples() -> u8
    ensures { Examples }
{
    0
}
