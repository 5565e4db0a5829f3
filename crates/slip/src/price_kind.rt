//! At which price a question is asked.

ghost use Rattle.std.specs.Prelude.{◌≡◌};
ghost use Rattle.slip.specs.Prices.{price_number, PriceRead};

use std::error::Error;
use std::fmt;

/// At which price a question is asked.
#[derive(Clone, Copy, Debug, PartialEq, Eq)]
pub enum PriceKind {
    Changes,
    ChangesThenSilence,
}

/// A byte that names no price.
#[derive(Clone, Copy, Debug, PartialEq, Eq)]
pub struct UnknownPrice(pub u8);

impl fmt::Display for UnknownPrice {
    fn fmt<W: fmt::Write>(&self, f: &mut fmt::Formatter<W>) -> fmt::Result {
        write!(f, "{} names no price", self.0)
    }
}

impl Error for UnknownPrice {}

impl TryFrom<u8> for PriceKind {
    type Error = UnknownPrice;

    ghost try_from_gives = { PriceRead };

    fn try_from(byte: u8) -> Result<Self, UnknownPrice> {
        match byte {
            1 => Ok(PriceKind::Changes),
            2 => Ok(PriceKind::ChangesThenSilence),
            _ => Err(UnknownPrice(byte)),
        }
    }
}

impl From<PriceKind> for u8 {
    ghost from_gives = { λ price byte. byte ≡ price_number price };

    fn from(price: PriceKind) -> u8 {
        match price {
            PriceKind::Changes => 1,
            PriceKind::ChangesThenSilence => 2,
        }
    }
}
