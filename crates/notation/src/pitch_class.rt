ghost use Rattle.notation.specs.Known.{pitch_class};
ghost use Rattle.notation.specs.Laws.{class_lawful};
ghost use Rattle.std.proofs.Common.{rules, arith};

use super::code::Code;
use super::{Following, Symbol};

/// One of the twelve notes of the octave, or a rest.
#[derive(Clone, Copy, Debug, PartialEq, Eq)]
pub struct PitchClass {
    code: Code<12>,
}

impl Symbol for PitchClass {
    ghost kind = { pitch_class };

    ghost byte = { λ s. s.code.byte };

    ghost lawful = { class_lawful };

    ghost bytes = { first_of (Prim.search rules, Prim.grind (arith, Self.row.coded.inj)) };

    fn number() -> u8 {
        2
    }

    fn read(b: u8) -> Option<PitchClass> {
        Some(PitchClass {
            code: Code::read(b)?,
        })
    }

    fn write(self) -> u8 {
        self.code.byte()
    }

    fn interval(self, to: PitchClass) -> Option<i32> {
        let from = self.code.sounding()?;
        Some((to.code.sounding()? - from).rem_euclid(12))
    }

    fn following() -> Following {
        Following::SumModulo12
    }

    fn transposed(self, by: i32) -> Option<PitchClass> {
        let from = self.code.sounding()?;
        if by < 0 || by > 11 {
            return None;
        }
        Some(PitchClass {
            code: Code::of((from + by) % 12)?,
        })
    }
}
