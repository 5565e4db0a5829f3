//! Why calls are turned away.

ghost use Rattle.std.specs.Prelude.{Some};
ghost use Rattle.book.specs.Describing.{refused};

use std::fmt;

/// Where a call is turned away.
#[derive(Clone, Copy, Debug, PartialEq, Eq)]
pub enum Layer {
    File,
    Block,
    Book,
    Slip,
    Score,
    Limit,
    Query,
    Question,
    Transposing,
    Writing,
}

/// Why a call is turned away: the rule's number, the place that it tells, and its layer.
#[derive(Clone, Copy, Debug, PartialEq, Eq)]
pub struct Refusal {
    // Stays: the rules number their refusals, and reports print the number; the faults are the enums.
    pub number: u8,
    pub place: u64,
    pub layer: Layer,
}

impl fmt::Display for Refusal {
    ghost output = { λ r. Some (refused r) };

    fn fmt<W: fmt::Write>(&self, f: &mut fmt::Formatter<W>) -> fmt::Result {
        write!(f, "refused {} at {}", self.number, self.place)
    }
}
