//! The two prices as numbers.

use price::{Changes, ChangesThenSilence, Price};

/// A price that can be told from other numbers of changes and silence.
pub(super) trait Counted: Price {
    // Whether silence counts.
    fn is_silent() -> bool;

    // Whether this is the price of so many changes with so much silence.
    fn is(self, changes: u32, silence: u32) -> bool;
}

impl Counted for Changes {
    fn is_silent() -> bool {
        false
    }

    fn is(self, changes: u32, _silence: u32) -> bool {
        self.count() == changes
    }
}

impl Counted for ChangesThenSilence {
    fn is_silent() -> bool {
        true
    }

    fn is(self, changes: u32, silence: u32) -> bool {
        self.changes() == changes && self.silence() == silence
    }
}
