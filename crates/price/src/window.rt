//! The sliding window.

ghost use Rattle.std.specs.Prelude.{length, MatchResult};

use super::span::Span;
use super::{Entry, Price};
use std::error::Error;
use std::fmt;

/// The position lies after the one that the window stands at.
#[derive(Clone, Copy, Debug, PartialEq, Eq)]
pub struct Passed;

impl fmt::Display for Passed {
    fn fmt<W: fmt::Write>(&self, f: &mut fmt::Formatter<W>) -> fmt::Result {
        f.write_str("the window has passed that position")
    }
}

impl Error for Passed {}

/// The entries put in so far, as far as they may still be told, over memory that the caller
/// brings. The window moves from late positions to early ones. An entry leaves it for good when
/// it is past the limit, or when one put in later costs no more: by the laws of prices that stays
/// so from every earlier position. Each comes in once and leaves once, so that a call takes
/// constant time on average over all calls.
#[derive(Drop)]
pub struct Window<'a, P> {
    entries: &'a mut [Entry<P>],
    span: Span,
}

impl<'a, P: Price> Window<'a, P> {
    ghost use Rattle.price.specs.History.{fresh};
    ghost use Rattle.price.specs.Answers.{Holds, Taken, Returned, Answered, Left};

    /// A window that tells entries at a gap of at most `limit`. Memory for as many entries as
    /// will be put in always suffices.
    pub fn new(entries: &'a mut [Entry<P>], limit: u32) -> Window<'a, P>
        ensures { Holds P.pricing P.meaning result (fresh (length entries.old) limit) }
    {
        Window {
            entries,
            span: Span::start(limit),
        }
    }

    /// Moves to the position `from` and puts in an entry that lies after it, no farther than any
    /// put in before. The entry comes back, and nothing changes, where that is not so, where the
    /// move is to a later position, and where the memory is full.
    pub fn put(&mut self, from: u32, entry: Entry<P>) -> Result<(), Entry<P>>
        ensures { MatchResult result (λ _. Taken P.pricing P.meaning self.old self.new from entry)
            (λ back. Returned P.pricing P.meaning self.old self.new from entry back) }
    {
        let span = self.span;
        if !span.takes(from, entry.position, self.entries.len()) {
            return Err(entry);
        }
        self.span = span.keep(self.entries, from, entry);
        Ok(())
    }

    /// Moves to the position `from` and tells the cheapest entry to go on at from there, with a
    /// gap of at most the limit; of equals the one put in last. A later position than the one
    /// reached is `Passed`, and nothing changes.
    pub fn least(&mut self, from: u32) -> Result<Option<Entry<P>>, Passed>
        ensures { MatchResult result (λ told. Answered P.pricing P.meaning self.old self.new from told)
            (λ _. Left P.pricing P.meaning self.old self.new from) }
    {
        let span = self.span;
        if span.has_passed(from) {
            return Err(Passed);
        }
        let (led, told) = span.lead(self.entries, from);
        self.span = led;
        Ok(told)
    }
}
