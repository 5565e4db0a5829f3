//! Which transpositions are admitted.

ghost use Rattle.std.specs.Prelude.{◌≡◌};
ghost use Rattle.notation.specs.Modes.{mode_number, ModeRead};

use std::error::Error;
use std::fmt;

/// Which transpositions are admitted: none but the untransposed query, or every one.
#[derive(Clone, Copy, Debug, PartialEq, Eq)]
pub enum Mode {
    Untransposed,
    AnyTransposition,
}

/// A byte that names no mode.
#[derive(Clone, Copy, Debug, PartialEq, Eq)]
pub struct UnknownMode(pub u8);

impl fmt::Display for UnknownMode {
    fn fmt<W: fmt::Write>(&self, f: &mut fmt::Formatter<W>) -> fmt::Result {
        write!(f, "{} names no mode", self.0)
    }
}

impl Error for UnknownMode {}

impl TryFrom<u8> for Mode {
    type Error = UnknownMode;

    ghost try_from_gives = { ModeRead };

    fn try_from(byte: u8) -> Result<Self, UnknownMode> {
        match byte {
            0 => Ok(Mode::Untransposed),
            1 => Ok(Mode::AnyTransposition),
            _ => Err(UnknownMode(byte)),
        }
    }
}

impl From<Mode> for u8 {
    ghost from_gives = { λ mode byte. byte ≡ mode_number mode };

    fn from(mode: Mode) -> u8 {
        match mode {
            Mode::Untransposed => 0,
            Mode::AnyTransposition => 1,
        }
    }
}
