//! The price that counts changes.

ghost use Rattle.std.specs.Prelude.{◌≡◌};
ghost use Rattle.std.proofs.Common.{arith};
ghost use Rattle.std.proofs.lemmas.Bool.Decides.{nat_tests};
ghost use Rattle.price.specs.Prices.{by_changes};
ghost use Rattle.price.specs.Meanings.{changes_of};

use super::Price;

/// The number of hand-overs.
#[derive(Clone, Copy, Debug, PartialEq, Eq, PartialOrd, Ord)]
pub struct Changes {
    count: u32,
}

impl Changes {
    /// How many hand-overs were charged for.
    pub fn count(self) -> u32
        ensures { result ≡ changes_of self }
    {
        self.count
    }
}

impl Price for Changes {
    ghost pricing = { by_changes };

    ghost meaning = { changes_of };

    ghost lawful = { Prim.grind (arith, nat_tests) };

    fn empty() -> Changes {
        Changes { count: 0 }
    }

    // Far below the largest number within the laws' bounds, so stopping there costs nothing.
    fn charged(self, _gap: u32) -> Changes {
        Changes {
            count: self.count.saturating_add(1),
        }
    }

    fn not_above(self, other: Changes) -> bool {
        self <= other
    }
}
