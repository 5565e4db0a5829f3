//! Why bytes are no slip, and why a slip is not written.

ghost use Rattle.std.specs.Prelude.{◌≡◌, Some};
ghost use Rattle.book.specs.Describing.{refused};
ghost use Rattle.slip.specs.Faults.{slip_told, slip_write_told};
ghost use Rattle.slip.specs.declared.fault.SlipFault.TheVariants.{OfBlock};
ghost use Rattle.slip.specs.declared.fault.SlipWriteFault.TheVariants.{OfOutput};

use book::{BlockFault, Layer, Refusal, TooShort};
use std::error::Error;
use std::fmt;

/// Why some bytes are no slip.
#[derive(Clone, Copy, Debug, PartialEq, Eq)]
pub enum SlipFault {
    /// The input is not one block long.
    Length { bytes: usize },
    /// The block is refused by itself.
    OfBlock(BlockFault),
    /// The block's letter is not that of a slip.
    OutOfTurn,
    /// The block has another number or kind than expected.
    Unexpected,
    /// The payload has another length than its query asks, or a field is out of range.
    OutOfRange,
    /// The kind cannot read a byte.
    Unreadable { byte: usize },
}

impl From<BlockFault> for SlipFault {
    ghost from_gives = { λ f r. r ≡ OfBlock f };

    fn from(fault: BlockFault) -> SlipFault {
        SlipFault::OfBlock(fault)
    }
}

impl SlipFault {
    pub fn refusal(&self) -> Refusal
        ensures { result ≡ slip_told self.now }
    {
        let (number, place, layer) = match self {
            SlipFault::Length { bytes } => (1, *bytes, Layer::File),
            SlipFault::OfBlock(fault) => {
                return fault.refusal();
            }
            SlipFault::OutOfTurn => (5, 0, Layer::Slip),
            SlipFault::Unexpected => (6, 0, Layer::Slip),
            SlipFault::OutOfRange => (11, 0, Layer::Slip),
            SlipFault::Unreadable { byte } => (9, *byte, Layer::Slip),
        };
        Refusal {
            number,
            place: place as u64,
            layer,
        }
    }
}

impl fmt::Display for SlipFault {
    ghost output = { λ f. Some (refused (slip_told f)) };

    fn fmt<W: fmt::Write>(&self, f: &mut fmt::Formatter<W>) -> fmt::Result {
        write!(f, "{}", self.refusal())
    }
}

impl Error for SlipFault {}

/// Why a slip is not written.
#[derive(Clone, Copy, Debug, PartialEq, Eq)]
pub enum SlipWriteFault {
    /// A field is out of range.
    OutOfRange,
    /// The output is too short.
    OfOutput(TooShort),
}

impl From<TooShort> for SlipWriteFault {
    ghost from_gives = { λ f r. r ≡ OfOutput f };

    fn from(fault: TooShort) -> SlipWriteFault {
        SlipWriteFault::OfOutput(fault)
    }
}

impl SlipWriteFault {
    pub fn refusal(&self) -> Refusal
        ensures { result ≡ slip_write_told self.now }
    {
        match self {
            SlipWriteFault::OutOfRange => Refusal {
                number: 11,
                place: 0,
                layer: Layer::Slip,
            },
            SlipWriteFault::OfOutput(fault) => fault.refusal(),
        }
    }
}

impl fmt::Display for SlipWriteFault {
    ghost output = { λ f. Some (refused (slip_write_told f)) };

    fn fmt<W: fmt::Write>(&self, f: &mut fmt::Formatter<W>) -> fmt::Result {
        write!(f, "{}", self.refusal())
    }
}

impl Error for SlipWriteFault {}
