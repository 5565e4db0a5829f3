//! Why bytes are refused. Faults nest as the layers do: a block's fault passes up whole.

ghost use Rattle.std.specs.Prelude.{◌≡◌, Some};
ghost use Rattle.book.specs.Describing.{refused};
ghost use Rattle.book.specs.Faults.{block_told, book_told, short_told};
ghost use Rattle.book.specs.declared.fault.BookFault.TheVariants.{OfBlock};
ghost use Rattle.book.specs.declared.fault.DescribeFault.TheVariants.{Memory, OfOutput};

use super::refusal::{Layer, Refusal};
use std::alloc::AllocError;
use std::error::Error;
use std::fmt;

/// Why a block is refused, whatever it is for.
#[derive(Clone, Copy, Debug, PartialEq, Eq)]
pub enum BlockFault {
    /// The check that it stores differs from the one worked out.
    Check { block: usize },
    /// Its letter or its kind is unknown.
    Unknown { block: usize },
    /// Its payload is too long, or what follows the payload is not zero.
    Padding { block: usize },
}

impl BlockFault {
    pub fn refusal(&self) -> Refusal
        ensures { result ≡ block_told self.now }
    {
        let (number, block) = match self {
            BlockFault::Check { block } => (2, *block),
            BlockFault::Unknown { block } => (3, *block),
            BlockFault::Padding { block } => (4, *block),
        };
        Refusal {
            number,
            place: block as u64,
            layer: Layer::Block,
        }
    }
}

impl fmt::Display for BlockFault {
    ghost output = { λ f. Some (refused (block_told f)) };

    fn fmt<W: fmt::Write>(&self, f: &mut fmt::Formatter<W>) -> fmt::Result {
        write!(f, "{}", self.refusal())
    }
}

impl Error for BlockFault {}

/// Why some bytes are no book.
#[derive(Clone, Copy, Debug, PartialEq, Eq)]
pub enum BookFault {
    /// The input is empty, or no whole number of blocks.
    Length { bytes: usize },
    /// A block is refused by itself.
    OfBlock(BlockFault),
    /// A block's letter is out of turn.
    OutOfTurn { block: usize },
    /// A block has another number or kind than expected.
    Unexpected { block: usize },
    /// A title has another length, or an unlawful number of tracks or columns.
    MisshapenTitle { block: usize },
    /// A column block has another length than due.
    UndueColumns { block: usize },
    /// The kind cannot read a byte.
    Unreadable { byte: usize },
    /// The input ends before the last column.
    Ends { blocks: usize },
}

impl From<BlockFault> for BookFault {
    ghost from_gives = { λ f r. r ≡ OfBlock f };

    fn from(fault: BlockFault) -> BookFault {
        BookFault::OfBlock(fault)
    }
}

impl BookFault {
    pub fn refusal(&self) -> Refusal
        ensures { result ≡ book_told self.now }
    {
        let (number, place, layer) = match self {
            BookFault::Length { bytes } => (1, *bytes, Layer::File),
            BookFault::OfBlock(fault) => {
                return fault.refusal();
            }
            BookFault::OutOfTurn { block } => (5, *block, Layer::Book),
            BookFault::Unexpected { block } => (6, *block, Layer::Book),
            BookFault::MisshapenTitle { block } => (7, *block, Layer::Book),
            BookFault::UndueColumns { block } => (8, *block, Layer::Book),
            BookFault::Unreadable { byte } => (9, *byte, Layer::Book),
            BookFault::Ends { blocks } => (10, *blocks, Layer::Book),
        };
        Refusal {
            number,
            place: place as u64,
            layer,
        }
    }
}

impl fmt::Display for BookFault {
    ghost output = { λ f. Some (refused (book_told f)) };

    fn fmt<W: fmt::Write>(&self, f: &mut fmt::Formatter<W>) -> fmt::Result {
        write!(f, "{}", self.refusal())
    }
}

impl Error for BookFault {}

/// An output is too short for what is to be written.
#[derive(Clone, Copy, Debug, PartialEq, Eq)]
pub struct TooShort {
    pub needed: usize,
}

impl TooShort {
    pub fn refusal(&self) -> Refusal
        ensures { result ≡ short_told self.now }
    {
        Refusal {
            number: 23,
            place: self.needed as u64,
            layer: Layer::Writing,
        }
    }
}

impl fmt::Display for TooShort {
    ghost output = { λ f. Some (refused (short_told f)) };

    fn fmt<W: fmt::Write>(&self, f: &mut fmt::Formatter<W>) -> fmt::Result {
        write!(f, "{}", self.refusal())
    }
}

impl Error for TooShort {}

/// Why a book is not described.
#[derive(Clone, Copy, Debug, PartialEq, Eq)]
pub enum DescribeFault {
    /// There is no memory for the text.
    Memory,
    /// The output is too short.
    OfOutput(TooShort),
}

impl fmt::Display for DescribeFault {
    fn fmt<W: fmt::Write>(&self, f: &mut fmt::Formatter<W>) -> fmt::Result {
        f.write_str(match self {
            DescribeFault::Memory => "no memory",
            DescribeFault::OfOutput(_) => "the line is too long",
        })
    }
}

impl Error for DescribeFault {}

impl From<AllocError> for DescribeFault {
    ghost from_gives = { λ _ r. r ≡ Memory };

    fn from(_error: AllocError) -> DescribeFault {
        DescribeFault::Memory
    }
}

impl From<TooShort> for DescribeFault {
    ghost from_gives = { λ f r. r ≡ OfOutput f };

    fn from(fault: TooShort) -> DescribeFault {
        DescribeFault::OfOutput(fault)
    }
}
