ghost use Rattle.notation.specs.Known.{pitch};
ghost use Rattle.notation.specs.Laws.{pitch_lawful};
ghost use Rattle.std.proofs.Common.{rules, arith};

use super::code::Code;
use super::{Following, Symbol};

/// A pitch in semitones, or a rest.
#[derive(Clone, Copy, Debug, PartialEq, Eq)]
pub struct Pitch {
    code: Code<128>,
}

impl Symbol for Pitch {
    ghost kind = { pitch };

    ghost byte = { λ s. s.code.byte };

    ghost lawful = { pitch_lawful };

    ghost bytes = { first_of (Prim.search rules, Prim.grind (arith, Self.row.coded.inj)) };

    fn number() -> u8 {
        1
    }

    fn read(b: u8) -> Option<Pitch> {
        Some(Pitch {
            code: Code::read(b)?,
        })
    }

    fn write(self) -> u8 {
        self.code.byte()
    }

    fn interval(self, to: Pitch) -> Option<i32> {
        let from = self.code.sounding()?;
        Some(to.code.sounding()? - from)
    }

    fn following() -> Following {
        Following::Sum
    }

    fn transposed(self, by: i32) -> Option<Pitch> {
        let code = self.code.sounding()?.checked_add(by)?;
        Some(Pitch {
            code: Code::of(code)?,
        })
    }
}
