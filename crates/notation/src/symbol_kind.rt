//! The kinds of symbols that books and slips name.

ghost use Rattle.std.specs.Prelude.{◌≡◌};
ghost use Rattle.notation.specs.Kinds.{kind_of, KindRead};

use std::error::Error;
use std::fmt;

/// A kind of symbols of this crate, for which there is a type of symbols of the same name.
#[derive(Clone, Copy, Debug, PartialEq, Eq)]
pub enum SymbolKind {
    Pitch,
    PitchClass,
    Stroke,
}

/// A byte that names no kind.
#[derive(Clone, Copy, Debug, PartialEq, Eq)]
pub struct UnknownKind(pub u8);

impl fmt::Display for UnknownKind {
    fn fmt<W: fmt::Write>(&self, f: &mut fmt::Formatter<W>) -> fmt::Result {
        write!(f, "{} names no kind of symbols", self.0)
    }
}

impl Error for UnknownKind {}

impl TryFrom<u8> for SymbolKind {
    type Error = UnknownKind;

    ghost try_from_gives = { KindRead };

    fn try_from(byte: u8) -> Result<Self, UnknownKind> {
        match byte {
            1 => Ok(SymbolKind::Pitch),
            2 => Ok(SymbolKind::PitchClass),
            3 => Ok(SymbolKind::Stroke),
            _ => Err(UnknownKind(byte)),
        }
    }
}

impl From<SymbolKind> for u8 {
    ghost from_gives = { λ kind byte. byte ≡ (kind_of kind).number };

    fn from(kind: SymbolKind) -> u8 {
        match kind {
            SymbolKind::Pitch => 1,
            SymbolKind::PitchClass => 2,
            SymbolKind::Stroke => 3,
        }
    }
}
