//! The places of a score that hold one byte.

ghost use Rattle.std.specs.Prelude.{◌≡◌, ℕ, ◌+◌, ◌<◌, ◌≤◌, length, MatchOption, slice_index};
ghost use Rattle.std.specs.Iterator.{at_most};

use super::table::Ground;
use notation::Symbol;

/// The places that hold one byte and lie below a mark, from the last one on.
#[derive(Drop)]
pub(crate) struct Places<'a> {
    previous: &'a [u32],
    mark: usize,
    ghost falls: { (p : ℕ) → p < length previous.now → slice_index previous.now p ≤ p },
    ghost within: { mark ≤ length previous.now },
}

impl<'a> Iterator for Places<'a> {
    type Item = usize;

    ghost next_gives = { λ s r t. MatchOption r (s.mark ≡ 0) (λ place. (s.mark ≡ place + 1) × (t.mark ≡ slice_index s.previous.now place) × (t.previous.now ≡ s.previous.now)) };

    ghost remaining = { λ s. at_most s.mark };

    fn next(&mut self) -> Option<usize> {
        let place = self.mark.checked_sub(1)?;
        self.mark = self.previous[place] as usize;
        Some(place)
    }
}

impl<'a, S: Symbol> Ground<'a, S> {
    /// The places that hold a byte.
    pub(crate) fn places(&self, byte: u8) -> Places<'_>
        ensures mark { result.mark ≡ slice_index self.now.last.now byte }
        ensures previous { result.previous.now ≡ self.now.previous.now }
    {
        Places {
            previous: self.previous,
            mark: self.last[byte as usize] as usize,
        }
    }
}
