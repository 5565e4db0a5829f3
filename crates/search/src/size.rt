//! How much workspace a question asks for.

ghost use Rattle.std.specs.Prelude.{◌≡◌, ◌<◌, ◌≤◌, map, length, if◌then◌else◌, Some, None, count_by, MatchResult, nat_eq, nat_lt};
ghost use Rattle.splitting.specs.Score.{note};
ghost use Rattle.search.specs.Candidates.{CandidateTo};
ghost use Rattle.search.specs.Faults.{query_told};
ghost use Rattle.search.specs.Queries.{query_refusal};
ghost use Rattle.search.specs.Workspace.{admits as admitted, matching as matched, triples as matches, candidate_size, workspace as greatest_workspace};

use super::query::Query;
use super::tally::Tally;
use notation::{Mode, Symbol};

// Whether a mode admits a transposition.
fn admits(mode: Mode, by: i32) -> bool
    ensures { result ≡ admitted mode by }
{
    match mode {
        Mode::Untransposed => by == 0,
        Mode::AnyTransposition => true,
    }
}

impl<'a, S: Symbol> Tally<'a, S> {
    /// The candidate that leads from the first note to a byte, if there is one.
    pub(crate) fn candidate_to(&self, mode: Mode, query: &Query<'_, S>, b: u8) -> Option<i32>
        ensures { CandidateTo S.kind mode (map S.byte self.now.cells.now) (note (map S.byte query.now.notes.now) 1) b result }
    {
        if self.count(b) == 0 {
            return None;
        }
        let to = S::read(b)?;
        let by = query.notes[0].interval(to)?;
        if admits(mode, by) { Some(by) } else { None }
    }

    // How many symbols lie at an interval from a note.
    fn matching(&self, note: S, by: i32) -> usize
        ensures is { result ≡ matched S.kind by (map S.byte self.now.cells.now) (S.byte note) }
        ensures few { result ≤ 65536 }
    {
        match note.transposed(by) {
            Some(s) => self.count(s.write()),
            None => 0,
        }
    }

    // How many triples match under a transposition.
    fn triples(&self, query: &Query<'_, S>, by: i32) -> usize
        ensures { result ≡ matches S.kind by (map S.byte self.now.cells.now) (map S.byte query.now.notes.now) }
    {
        // Stays: tried `map` and `sum`; of a closure that holds an interval no equation is found.
        let mut sum = 0;
        for s in query.notes {
            sum += self.matching(*s, by);
        }
        sum
    }

    // How many triples match under the candidate that leads from the first note to a byte; 0 where
    // that is no candidate.
    fn size_to(&self, mode: Mode, query: &Query<'_, S>, b: u8) -> usize
        ensures { result ≡ (if nat_lt 0 (count_by (nat_eq b) (map S.byte self.now.cells.now)) then candidate_size S.kind mode (map S.byte self.now.cells.now) (map S.byte query.now.notes.now) (S.kind.interval (note (map S.byte query.now.notes.now) 1) b) else 0) }
    {
        match self.candidate_to(mode, query, b) {
            Some(by) => self.triples(query, by),
            None => 0,
        }
    }

    /// The workspace that a question asks for: the greatest of these numbers.
    pub(crate) fn workspace(&self, mode: Mode, query: &Query<'_, S>) -> usize
        ensures { result ≡ greatest_workspace S.kind mode (map S.byte self.now.cells.now) (map S.byte query.now.notes.now) }
    {
        let mut size = 0;
        for b in u8::MIN..=u8::MAX {
            size = self.size_to(mode, query, b).max(size);
        }
        size
    }
}
