//! How many questions were asked, what the exhaustive search found, and how many answers differ.

use std::fmt;

#[derive(Default, Drop)]
pub(super) struct Tally {
    none: u32,
    found: u32,
    unlike: u32,
}

impl Tally {
    // Counts a question with a way or with none, and whether its answer was right.
    pub(super) fn count(&mut self, has_way: bool, right: bool) {
        if has_way {
            self.found = self.found.saturating_add(1);
        } else {
            self.none = self.none.saturating_add(1);
        }
        if !right {
            self.unlike = self.unlike.saturating_add(1);
        }
    }
}

impl fmt::Display for Tally {
    fn fmt<W: fmt::Write>(&self, f: &mut fmt::Formatter<W>) -> fmt::Result {
        let questions = self.none.saturating_add(self.found);
        let none = self.none;
        let found = self.found;
        let unlike = self.unlike;
        write!(
            f,
            "{questions} questions, {none} without a way, {found} with one, {unlike} unlike"
        )
    }
}
