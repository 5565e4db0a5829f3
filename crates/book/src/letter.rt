//! The letters of blocks.

ghost use Rattle.std.specs.Prelude.{◌≡◌};
ghost use Rattle.book.specs.Letters.{letter_byte, LetterRead};

use std::error::Error;
use std::fmt;

/// What a block is for.
#[derive(Clone, Copy, Debug, PartialEq, Eq)]
pub enum Letter {
    Title,
    Columns,
    Slip,
}

/// A byte that is no letter of a block.
#[derive(Clone, Copy, Debug, PartialEq, Eq)]
pub struct UnknownLetter(pub u8);

impl fmt::Display for UnknownLetter {
    fn fmt<W: fmt::Write>(&self, f: &mut fmt::Formatter<W>) -> fmt::Result {
        write!(f, "{} is no letter of a block", self.0)
    }
}

impl Error for UnknownLetter {}

impl TryFrom<u8> for Letter {
    type Error = UnknownLetter;

    ghost try_from_gives = { LetterRead };

    fn try_from(byte: u8) -> Result<Self, UnknownLetter> {
        match byte {
            b'H' => Ok(Letter::Title),
            b'C' => Ok(Letter::Columns),
            b'Q' => Ok(Letter::Slip),
            _ => Err(UnknownLetter(byte)),
        }
    }
}

impl From<Letter> for u8 {
    ghost from_gives = { λ letter byte. byte ≡ letter_byte letter };

    fn from(letter: Letter) -> u8 {
        match letter {
            Letter::Title => b'H',
            Letter::Columns => b'C',
            Letter::Slip => b'Q',
        }
    }
}
