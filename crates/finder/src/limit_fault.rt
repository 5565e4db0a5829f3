//! Why a number is no limit.

ghost use Rattle.std.specs.Prelude.{◌≡◌, Some};
ghost use Rattle.book.specs.Describing.{refused};
ghost use Rattle.finder.specs.Limits.{limit_told};

use book::{Layer, Refusal};
use std::error::Error;
use std::fmt;

/// A number above every limit.
#[derive(Clone, Copy, Debug, PartialEq, Eq)]
pub struct LimitFault {
    pub number: u32,
}

impl LimitFault {
    pub fn refusal(&self) -> Refusal
        ensures { result ≡ limit_told self.now }
    {
        Refusal {
            number: 16,
            place: self.number as u64,
            layer: Layer::Limit,
        }
    }
}

impl fmt::Display for LimitFault {
    ghost output = { λ f. Some (refused (limit_told f)) };

    fn fmt<W: fmt::Write>(&self, f: &mut fmt::Formatter<W>) -> fmt::Result {
        write!(f, "{}", self.refusal())
    }
}

impl Error for LimitFault {}
