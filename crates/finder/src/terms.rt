//! The terms of a search.

ghost use Rattle.std.specs.Prelude.{◌≡◌};
ghost use Rattle.notation.specs.declared.mode.Mode.TheVariants.{Untransposed};

use super::limit::Limit;
use notation::Mode;

/// What a search goes by: the limit on the columns between two pieces, and which transpositions
/// are admitted.
#[derive(Clone, Copy, Debug, PartialEq, Eq)]
pub struct Terms {
    pub(crate) limit: Limit,
    pub(crate) mode: Mode,
}

impl Terms {
    /// The terms at first: limit 0, untransposed.
    pub fn new() -> Terms
        ensures { (result.limit.value ≡ 0) × (result.mode ≡ Untransposed) }
    {
        Terms {
            limit: Limit::zero(),
            mode: Mode::Untransposed,
        }
    }

    /// Puts another limit and another mode in the place of both.
    pub fn set(&mut self, limit: Limit, mode: Mode)
        ensures { (self.new.limit ≡ limit) × (self.new.mode ≡ mode) }
    {
        *self = Terms { limit, mode };
    }

    pub fn limit(&self) -> Limit
        ensures { result ≡ self.now.limit }
    {
        self.limit
    }

    pub fn mode(&self) -> Mode
        ensures { result ≡ self.now.mode }
    {
        self.mode
    }
}
