//! What a list of calls works on.

ghost use Rattle.std.specs.Prelude.{◌≡◌, slice_index, vec_len};
ghost use Rattle.finder.specs.Ledger.{at_first};
ghost use Rattle.finder.specs.Trying.{ledger_of, limits};

use super::limit::Limit;
use super::score::Score;
use super::terms::Terms;
use notation::Symbol;
use std::alloc::Global;

/// A session: a score, its terms, and the limits on trial. The terms keep their own limit, and the
/// limit tried last is in force.
#[derive(Drop)]
pub(crate) struct Session<S> {
    pub(crate) score: Score<S>,
    pub(crate) terms: Terms,
    pub(crate) tried: Vec<Limit>,
}

impl<S: Symbol> Session<S> {
    /// A session over memory of so many tracks, with no column, the first terms and no trial.
    pub(crate) fn new(heap: Global, tracks: usize, memory: Vec<S>) -> Session<S>
        ensures { ledger_of S.byte result ≡ at_first tracks (vec_len memory) }
    {
        Session {
            score: Score::new(tracks, memory),
            terms: Terms::new(),
            tried: Vec::new(heap),
        }
    }

    /// The limit in force: that of the trial begun last, or the terms' own.
    pub(crate) fn limit(&self) -> Limit
        ensures { result.value ≡ slice_index (limits self.now) 0 }
    {
        self.tried.last().copied().unwrap_or(self.terms.limit())
    }
}
