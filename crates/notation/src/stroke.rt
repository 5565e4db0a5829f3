ghost use Rattle.notation.specs.Known.{stroke};
ghost use Rattle.notation.specs.Laws.{stroke_lawful};
ghost use Rattle.std.proofs.Common.{rules, arith};

use super::code::Code;
use super::{Following, Symbol};

/// A stroke on an instrument without pitch, or a rest.
#[derive(Clone, Copy, Debug, PartialEq, Eq)]
pub struct Stroke {
    code: Code<64>,
}

impl Symbol for Stroke {
    ghost kind = { stroke };

    ghost byte = { λ s. s.code.byte };

    ghost lawful = { stroke_lawful };

    ghost bytes = { first_of (Prim.search rules, Prim.grind (arith, Self.row.coded.inj)) };

    fn number() -> u8 {
        3
    }

    fn read(b: u8) -> Option<Stroke> {
        Some(Stroke {
            code: Code::read(b)?,
        })
    }

    fn write(self) -> u8 {
        self.code.byte()
    }

    fn interval(self, to: Stroke) -> Option<i32> {
        if self.code.sounding()? == to.code.sounding()? {
            Some(0)
        } else {
            None
        }
    }

    fn following() -> Following {
        Following::Zero
    }

    fn transposed(self, by: i32) -> Option<Stroke> {
        self.code.sounding()?;
        if by == 0 { Some(self) } else { None }
    }
}
