//! Symbols of a score and the intervals between them.
#![tactic(auto)]

mod code;
mod mode;
mod pitch;
mod pitch_class;
mod stroke;
mod symbol_kind;

ghost use Rattle.std.specs.Prelude.{◌≡◌, ℕ, T, ℤ, Some, MatchOption, ◌≢◌};
ghost use Rattle.notation.specs.Kind.{Kind, Lawful, readable, rest};

pub use mode::{Mode, UnknownMode};
pub use pitch::Pitch;
pub use pitch_class::PitchClass;
pub use stroke::Stroke;
pub use symbol_kind::{SymbolKind, UnknownKind};

/// How one interval follows another in a kind: by their sum, by their sum modulo 12, or by zero
/// whatever they are.
#[derive(Clone, Copy, Debug, PartialEq, Eq)]
pub enum Following {
    Sum,
    SumModulo12,
    Zero,
}

/// A kind of symbol. Its meaning is the record `kind`, and a symbol is told by its byte: a code
/// of the kind, or 255 for a rest.
pub trait Symbol: Copy {
    ghost kind: { Kind };

    ghost byte: { Self → ℕ };

    /// The byte that names the kind in books and slips.
    fn number() -> u8
        ensures { result ≡ kind.number };

    /// The symbol of a byte: each code and 255 has one, no other byte.
    fn read(b: u8) -> Option<Self>
        ensures { MatchOption result (T (readable kind b) → ⊥) (λ s. byte s ≡ b) };

    /// The rest of the kind.
    fn rest() -> Self
        ensures { byte result ≡ rest }
    {
        match Self::read(255) {
            Some(symbol) => symbol,
            None => unreachable(),
        }
    }

    /// The byte of the symbol: the one that it is read from.
    fn write(self) -> u8
        ensures { result ≡ byte self };

    /// The interval from this symbol to another; absent where either is a rest, and where the
    /// kind tells none.
    fn interval(self, to: Self) -> Option<i32>
        ensures { result ≡ kind.interval (byte self) (byte to) };

    /// How one interval of the kind follows another.
    fn following() -> Following
        ensures { result ≡ kind.following };

    /// The symbol at an interval from this one; absent exactly where there is none.
    fn transposed(self, by: i32) -> Option<Self>
        ensures { MatchOption result ((b : ℕ) → kind.interval (byte self) b ≢ Some by) (λ s. kind.interval (byte self) (byte s) ≡ Some by) };

    ghost lawful: { Lawful kind };

    ghost bytes: { (s : Self) → T (readable kind (byte s)) };
}
