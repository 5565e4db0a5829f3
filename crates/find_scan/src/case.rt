//! Small questions made at random.

use finder::{Limit, Score, Terms};
use notation::{Mode, Symbol};
use prng::Random;
use std::alloc::{AllocError, Global};

/// A question: symbols column after column, track 1 first, and what is asked about them.
#[derive(Drop)]
pub(super) struct Case<S> {
    pub(super) tracks: usize,
    pub(super) symbols: Vec<S>,
    pub(super) query: Vec<S>,
    pub(super) limit: u32,
    pub(super) mode: Mode,
}

// So many symbols of the codes, and a rest for one in so many, or no rests for 0.
fn any_symbols<S: Symbol>(
    heap: Global,
    random: &mut Random,
    codes: &[u8],
    rests: u32,
    count: u32,
) -> Result<Vec<S>, AllocError> {
    let mut symbols = Vec::new(heap);
    for _ in 0..count {
        let rested = random.below(rests) == 0 && rests > 0;
        let drawn = random.below(codes.len().min(255) as u32) as usize;
        let code = codes.get(drawn).copied().unwrap_or(255);
        if let Some(symbol) = S::read(if rested { 255 } else { code }) {
            symbols.push(symbol)?;
        }
    }
    Ok(symbols)
}

impl<S: Symbol> Case<S> {
    // A score of up to 3 tracks and 5 columns, at most 12 places, and a query of up to 4 notes.
    pub(super) fn draw(
        heap: Global,
        random: &mut Random,
        codes: &[u8],
        limit: u32,
        mode: Mode,
    ) -> Result<Case<S>, AllocError> {
        let tracks = random.below(3).saturating_add(1);
        let columns = random.below(6).min(12 / tracks.max(1));
        let notes = random.below(4).saturating_add(1);
        let symbols = any_symbols(heap, random, codes, 5, columns.saturating_mul(tracks))?;
        let query = any_symbols(heap, random, codes, 0, notes)?;
        Ok(Case {
            tracks: tracks as usize,
            symbols,
            query,
            limit,
            mode,
        })
    }

    // The note of a number, counted from 1.
    pub(super) fn note(&self, number: usize) -> Option<S> {
        self.query.get(number.checked_sub(1)?).copied()
    }

    // The symbol in a column on a track, both counted from 1.
    pub(super) fn symbol(&self, column: usize, track: usize) -> Option<S> {
        if track > self.tracks {
            return None;
        }
        let before = column.checked_sub(1)?.checked_mul(self.tracks)?;
        self.symbols
            .get(before.checked_add(track.checked_sub(1)?)?)
            .copied()
    }

    // The terms that are asked under.
    pub(super) fn terms(&self) -> Option<Terms> {
        let mut terms = Terms::new();
        terms.set(Limit::new(self.limit).ok()?, self.mode);
        Some(terms)
    }

    // The score that is asked, in memory with room for one column more.
    pub(super) fn score(&self, heap: Global) -> Result<Option<Score<S>>, AllocError> {
        let length = self.symbols.len().saturating_add(self.tracks);
        let mut score = Score::new(self.tracks, vec![in heap; S::rest(); length]?);
        for column in self.symbols.chunks(self.tracks.max(1)) {
            if score.append(column).is_err() {
                return Ok(None);
            }
        }
        Ok(Some(score))
    }
}
