//! What the window holds.

ghost use Rattle.std.specs.Prelude.{◌≡◌, ◌≤◌, ◌↔◌, IsTrue};
ghost use Rattle.price.specs.History.{gap};
ghost use Rattle.price.specs.Keeping.{Judged};

use super::Price;

/// A place at which the next piece may begin: its position, from which gaps are counted, its
/// place in the score, and the price of the rest of the query from there.
#[derive(Clone, Copy, Debug, PartialEq, Eq)]
pub struct Entry<P> {
    pub position: u32,
    pub place: u32,
    pub price: P,
}

impl<P: Price> Entry<P> {
    /// The positions strictly between `from` and this entry.
    pub fn gap_from(self, from: u32) -> u32
        ensures { result ≡ gap from self }
    {
        self.position.saturating_sub(from).saturating_sub(1)
    }

    // Whether a hand-over from `from` to here keeps the limit.
    pub(super) fn within(self, from: u32, limit: u32) -> bool
        ensures { IsTrue result ↔ (gap from self ≤ limit) }
    {
        self.gap_from(from) <= limit
    }

    // Whether going on here from `from` costs no more than going on there.
    pub(super) fn no_dearer(self, there: Entry<P>, from: u32) -> bool
        ensures { Judged P.pricing P.meaning from self there result }
    {
        let here_price = self.price.charged(self.gap_from(from));
        let there_price = there.price.charged(there.gap_from(from));
        here_price.not_above(there_price)
    }
}
