//! Bytes of a kind.

ghost use Rattle.std.specs.Prelude.{◌≡◌, ℕ, ◌<◌, ◌||◌, T, pos, if◌then◌else◌, Some, None, MatchOption, ◌==◌, ◌≢◌, nat_lt};

/// A byte of a kind with so many codes: a code, which is below them, or a rest.
#[derive(Clone, Copy, Debug, PartialEq, Eq)]
pub(crate) struct Code<const CODES: u8> {
    byte: u8,
    ghost read: { T (nat_lt byte CODES || byte == 255) },
}

impl<const CODES: u8> Code<CODES> {
    pub(crate) fn read(byte: u8) -> Option<Code<CODES>>
        ensures { MatchOption result (T (nat_lt byte CODES || byte == 255) → ⊥) (λ c. c.byte ≡ byte) }
    {
        if byte < CODES || byte == 255 {
            Some(Code { byte })
        } else {
            None
        }
    }

    pub(crate) fn byte(self) -> u8
        ensures { result ≡ self.entry.byte }
    {
        self.byte
    }

    /// The code as a number; absent for a rest.
    pub(crate) fn sounding(self) -> Option<i32>
        ensures { result ≡ (if nat_lt self.entry.byte CODES then Some (pos self.entry.byte) else None) }
    {
        if self.byte < CODES {
            Some(i32::from(self.byte))
        } else {
            None
        }
    }

    /// The code that a number is; absent where it is none.
    pub(crate) fn of(number: i32) -> Option<Code<CODES>>
        ensures { MatchOption result ((b : ℕ) → b < CODES → pos b ≢ number) (λ c. (c.byte < CODES) × (pos c.byte ≡ number)) }
    {
        if number < 0 || number >= i32::from(CODES) {
            return None;
        }
        Some(Code { byte: number as u8 })
    }
}
