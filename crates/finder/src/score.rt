//! Scores over memory that is handed over.

ghost use Rattle.std.specs.Prelude.{◌≡◌, ◌*◌, ◌/◌, ◌<◌, ◌≤◌, Some, None, vec_len, MatchBool, MatchResult};
ghost use Rattle.finder.specs.ScoreRules.{score_told, in_score, memory_refusal};

use super::score_fault::ScoreFault;

/// A score: columns of symbols in the front of its memory, column after column, track 1 first.
///
/// Its memory is 1 to 4,096 columns of 1 to 16 tracks; over memory that is not, it has one track and
/// no room for a column.
#[derive(Drop)]
pub struct Score<S> {
    pub(crate) memory: Vec<S>,
    pub(crate) tracks: usize,
    pub(crate) capacity: usize,
    pub(crate) columns: usize,
    ghost some_track: { 1 ≤ tracks },
    ghost few_tracks: { tracks ≤ 16 },
    ghost few_columns: { capacity ≤ 4096 },
    ghost held: { columns ≤ capacity },
    ghost room: { capacity * tracks ≤ vec_len memory },
    ghost whole: { (0 < capacity → capacity * tracks ≡ vec_len memory) },
    ghost none: { (capacity ≡ 0 → tracks ≡ 1) },
}

impl<S> Score<S> {
    /// Whether memory of so many symbols can hold a score of so many tracks.
    pub fn check(tracks: usize, length: usize) -> Result<(), ScoreFault>
        ensures { MatchResult result (λ _. memory_refusal tracks length ≡ None) (λ f. memory_refusal tracks length ≡ Some (score_told f)) }
    {
        if Self::fits(tracks, length) {
            Ok(())
        } else {
            Err(ScoreFault::Misshapen { length })
        }
    }

    fn fits(tracks: usize, length: usize) -> bool
        ensures { result ≡ in_score tracks length }
    {
        1 <= tracks
            && tracks <= 16
            && length % tracks == 0
            && 1 <= length / tracks
            && length / tracks <= 4096
    }

    /// The score over some memory, with no column yet.
    pub fn new(tracks: usize, memory: Vec<S>) -> Score<S>
        ensures shape { MatchBool (in_score tracks (vec_len memory)) ((result.tracks ≡ tracks) × (result.capacity ≡ vec_len memory / tracks)) ((result.tracks ≡ 1) × (result.capacity ≡ 0)) }
        ensures empty { result.columns ≡ 0 }
        ensures memory { result.memory ≡ memory }
    {
        let (tracks, capacity) = if Self::fits(tracks, memory.len()) {
            (tracks, memory.len() / tracks)
        } else {
            (1, 0)
        };
        Score {
            memory,
            tracks,
            capacity,
            columns: 0,
        }
    }

    pub fn tracks(&self) -> usize
        ensures { result ≡ self.now.tracks }
    {
        self.tracks
    }

    /// The columns that the memory has room for.
    pub fn capacity(&self) -> usize
        ensures { result ≡ self.now.capacity }
    {
        self.capacity
    }

    /// The columns that the score holds.
    pub fn columns(&self) -> usize
        ensures { result ≡ self.now.columns }
    {
        self.columns
    }
}
