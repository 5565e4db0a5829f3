//! Why a call on a score is turned away. A book's fault passes up whole, and a block's within it.

ghost use Rattle.std.specs.Prelude.{◌≡◌, Some};
ghost use Rattle.book.specs.Describing.{refused};
ghost use Rattle.finder.specs.ScoreRules.{score_told};
ghost use Rattle.finder.specs.declared.score_fault.ScoreFault.TheVariants.{OfBook};

use book::{BookFault, Layer, Refusal};
use std::error::Error;
use std::fmt;

#[derive(Clone, Copy, Debug, PartialEq, Eq)]
pub enum ScoreFault {
    /// Tracks outside 1 to 16, or memory that is not 1 to 4,096 columns of them.
    Misshapen { length: usize },
    /// A column or a book of another number of tracks.
    OtherTracks { tracks: usize },
    /// No room for a column, or for the columns of a book.
    NoRoom { capacity: usize },
    NoColumn { column: usize },
    NoTrack { track: usize },
    /// A cut that keeps more columns than there are.
    TooFew { columns: usize },
    /// A book is refused by itself.
    OfBook(BookFault),
}

impl From<BookFault> for ScoreFault {
    ghost from_gives = { λ f r. r ≡ OfBook f };

    fn from(fault: BookFault) -> ScoreFault {
        ScoreFault::OfBook(fault)
    }
}

impl ScoreFault {
    pub fn refusal(&self) -> Refusal
        ensures { result ≡ score_told self.now }
    {
        let (number, place) = match self {
            ScoreFault::Misshapen { length } => (12, *length),
            ScoreFault::OtherTracks { tracks } => (13, *tracks),
            ScoreFault::NoRoom { capacity } => (14, *capacity),
            ScoreFault::NoColumn { column } => (15, *column),
            ScoreFault::NoTrack { track } => (15, *track),
            ScoreFault::TooFew { columns } => (22, *columns),
            ScoreFault::OfBook(fault) => {
                return fault.refusal();
            }
        };
        Refusal {
            number,
            place: place as u64,
            layer: Layer::Score,
        }
    }
}

impl fmt::Display for ScoreFault {
    ghost output = { λ f. Some (refused (score_told f)) };

    fn fmt<W: fmt::Write>(&self, f: &mut fmt::Formatter<W>) -> fmt::Result {
        write!(f, "{}", self.refusal())
    }
}

impl Error for ScoreFault {}
