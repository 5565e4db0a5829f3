//! Limits on the columns between two pieces.

ghost use Rattle.std.specs.Prelude.{◌≡◌, ◌≤◌, Some, None, MatchResult};
ghost use Rattle.finder.specs.Limits.{limit_refusal, limit_told};

use super::limit_fault::LimitFault;

/// At most so many columns between two pieces: 0 to 4,095, checked when made and lawful ever after.
#[derive(Clone, Copy, Debug, PartialEq, Eq)]
pub struct Limit {
    value: u32,
    ghost lawful: { value ≤ 4095 },
}

impl Limit {
    pub fn new(n: u32) -> Result<Limit, LimitFault>
        ensures { MatchResult result (λ l. (limit_refusal n ≡ None) × (l.value ≡ n)) (λ f. limit_refusal n ≡ Some (limit_told f)) }
    {
        if n > 4095 {
            return Err(LimitFault { number: n });
        }
        Ok(Limit { value: n })
    }

    /// The least limit: pieces follow each other without a column between.
    pub fn zero() -> Limit
        ensures { result.value ≡ 0 }
    {
        Limit { value: 0 }
    }

    pub fn value(&self) -> u32
        ensures { result ≡ self.now.value }
    {
        self.value
    }
}
