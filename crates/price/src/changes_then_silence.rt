//! The price that counts changes and then silence.

ghost use Rattle.std.specs.Prelude.{◌≡◌};
ghost use Rattle.std.proofs.Common.{arith};
ghost use Rattle.std.proofs.lemmas.Bool.Decides.{nat_tests};
ghost use Rattle.price.specs.Prices.{by_changes_then_silence};
ghost use Rattle.price.specs.Meanings.{tally_of};

use super::Price;

/// The number of hand-overs, and the silence: the sum of their gaps. Fewer changes are cheaper,
/// and of as many the one with less silence.
#[derive(Clone, Copy, Debug, PartialEq, Eq, PartialOrd, Ord)]
pub struct ChangesThenSilence {
    changes: u32,
    silence: u32,
}

impl ChangesThenSilence {
    /// How many hand-overs were charged for.
    pub fn changes(self) -> u32
        ensures { result ≡ (tally_of self).changes }
    {
        self.changes
    }

    /// The sum of their gaps.
    pub fn silence(self) -> u32
        ensures { result ≡ (tally_of self).silence }
    {
        self.silence
    }
}

impl Price for ChangesThenSilence {
    ghost pricing = { by_changes_then_silence };

    ghost meaning = { tally_of };

    ghost lawful = { Prim.grind (arith, nat_tests) };

    fn empty() -> ChangesThenSilence {
        ChangesThenSilence {
            changes: 0,
            silence: 0,
        }
    }

    // The depth bounds both numbers: 62 charges of 4,094 are far below the largest.
    fn charged(self, gap: u32) -> ChangesThenSilence {
        ChangesThenSilence {
            changes: self.changes.saturating_add(1),
            silence: self.silence.saturating_add(gap),
        }
    }

    fn not_above(self, other: ChangesThenSilence) -> bool {
        self <= other
    }
}
