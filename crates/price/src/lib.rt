//! What a splitting costs, and the window that tells where to go on most cheaply.
#![tactic(auto)]

mod changes;
mod changes_then_silence;
mod entry;
mod span;
mod widest_gap;
mod window;

ghost use Rattle.std.specs.Prelude.{◌≡◌, ◌≤◌};
ghost use Rattle.price.specs.Pricing.{Pricing, Lawful};

pub use changes::Changes;
pub use changes_then_silence::ChangesThenSilence;
pub use entry::Entry;
pub use widest_gap::{Turn, turned_by_one_column};
pub use window::{Passed, Window};

/// A price of splittings. Its meaning is the record `pricing`, whose laws it owes: the order is
/// total and transitive, one charge on both sides keeps it, and so does one column more in both
/// gaps. They are owed for gaps up to 4,094 and up to 63 charges, which is all that a score of
/// 4,096 columns and a query of 64 notes can ask for.
pub trait Price: Copy {
    ghost pricing: { Pricing };

    ghost meaning: { Self → pricing.Meaning };

    /// The price of one piece alone.
    fn empty() -> Self
        ensures { meaning result ≡ pricing.nothing };

    /// This price and one hand-over more, with its gap: the columns strictly between two pieces.
    /// Past the laws' bounds it is any price.
    fn charged(self, gap: u32) -> Self
        ensures { pricing.depth (meaning self) ≤ 62 → gap ≤ 4094 →
            meaning result ≡ pricing.charged (meaning self) gap };

    /// Whether this price is no higher than the other.
    fn not_above(self, other: Self) -> bool
        ensures { pricing.depth (meaning self) ≤ 63 → pricing.depth (meaning other) ≤ 63 →
            result ≡ pricing.not_above (meaning self) (meaning other) };

    ghost lawful: { Lawful pricing };
}
