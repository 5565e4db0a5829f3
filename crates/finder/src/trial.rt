//! Trials of another limit.

ghost use Rattle.std.specs.Prelude.{◌≡◌, Some, None, MatchResult};
ghost use Rattle.std.specs.Borrow.{sem};
ghost use Rattle.book.specs.Refusals.{then};
ghost use Rattle.finder.specs.Limits.{limit_refusal, limit_told};
ghost use Rattle.finder.specs.Trials.{LendsTerms};

use super::limit::Limit;
use super::limit_fault::LimitFault;
use super::terms::Terms;
use std::mem;

/// Another limit in force. When it ends, in whichever way, the former one stands again.
pub struct Trial<'a> {
    pub(crate) terms: &'a mut Terms,
    pub(crate) former: Limit,
}

impl Drop for Trial<'_> {
    fn drop(self)
        ensures limit { self.exit.0.now.limit ≡ self.entry.former }
        ensures mode { self.exit.0.now.mode ≡ self.entry.terms.now.mode }
    {
        self.terms.limit = self.former;
        let Trial {
            terms: _,
            former: _,
        } = self;
    }
}

impl Trial<'_> {
    /// The terms under the trial.
    pub fn terms(&self) -> &Terms
        ensures { result.now ≡ self.now.terms.now }
    {
        &*self.terms
    }

    /// Begins a trial of another limit within this one.
    pub fn begin(&mut self, limit: Limit) -> Trial<'_>
        ensures* writes_back { sem 𝓛 (LendsTerms self.entry result) }
        ensures former { result.former ≡ self.old.terms.now.limit }
        ensures limit { result.terms.now.limit ≡ limit }
        ensures mode { result.terms.now.mode ≡ self.old.terms.now.mode }
    {
        let terms = &mut *self.terms;
        terms.begin(limit)
    }
}

impl Terms {
    /// Begins a trial of another limit.
    pub fn begin(&mut self, limit: Limit) -> Trial<'_>
        ensures same_reference { result.terms.ghost_name ≡ self.entry.ghost_name }
        ensures former { result.former ≡ self.old.limit }
        ensures limit { result.terms.now.limit ≡ limit }
        ensures mode { result.terms.now.mode ≡ self.old.mode }
    {
        let former = mem::replace(&mut self.limit, limit);
        Trial {
            terms: self,
            former,
        }
    }
}

/// Tries a limit, and within that trial another: tells the limit in force at the innermost. The
/// terms are as they were on every way out: before a trial, out of the outer one by `?` and by
/// `return`, and out of both at their end.
pub fn tried_twice(terms: &mut Terms, outer: u32, inner: u32) -> Result<u32, LimitFault>
    ensures told { MatchResult result (λ n. (then (limit_refusal outer) (limit_refusal inner) ≡ None) × (n ≡ inner)) (λ f. then (limit_refusal outer) (limit_refusal inner) ≡ Some (limit_told f)) }
    ensures limit { terms.new.limit ≡ terms.old.limit }
    ensures mode { terms.new.mode ≡ terms.old.mode }
{
    let limit = Limit::new(outer)?;
    let mut trial = terms.begin(limit);
    let limit = Limit::new(inner)?;
    if inner == outer {
        return Ok(trial.terms().limit().value());
    }
    let within = trial.begin(limit);
    Ok(within.terms().limit().value())
}
