//! How the rest of a query goes on from a place.

ghost use Rattle.std.specs.Prelude.{◌≡◌, ◌≤◌};
ghost use Rattle.price.specs.Answers.{Holds};
ghost use Rattle.price.specs.History.{History, Bounded, moved};
ghost use Rattle.search.specs.Rows.{Hands, Chosen};

use price::{Price, Window};

/// The step to the next column of the same track. Any other step is the place that the next note is
/// handed over to.
// Stays: the caller's sheet of steps is of 32-bit numbers, and has no room for an enum.
pub(crate) const GOING_ON: u32 = u32::MAX;

/// A hand-over: the place that the next note lies at, and the price with the hand-over charged.
// Stays: beside `Best`, since a step is a place of 32 bits.
#[derive(Clone, Copy)]
pub(crate) struct Over<P> {
    pub(crate) price: P,
    pub(crate) place: u32,
}

// The cheapest hand-over from a column, as the window tells it.
pub(crate) fn hand_over<P: Price>(window: &mut Window<P>, from: u32) -> Option<Over<P>>
    ensures { (h : History P) → Holds P.pricing P.meaning window.old h → from ≤ h.position → Holds P.pricing P.meaning window.new (moved h from) × (Bounded P.pricing P.meaning (moved h from) → Hands P.pricing P.meaning (moved h from) result) }
{
    let Ok(told) = window.least(from) else {
        return None;
    };
    let entry = told?;
    Some(Over {
        price: entry.price.charged(entry.gap_from(from)),
        place: entry.place,
    })
}

// The cheaper of going on and being handed over, with the step.
pub(crate) fn choose<P: Price>(on: Option<P>, over: Option<Over<P>>) -> (Option<P>, u32)
    ensures { Chosen P.pricing P.meaning on over result.0 result.1 }
{
    match (on, over) {
        (None, None) => (None, GOING_ON),
        (None, Some(o)) => (Some(o.price), o.place),
        (Some(a), None) => (Some(a), GOING_ON),
        (Some(a), Some(o)) => {
            if a.not_above(o.price) {
                (Some(a), GOING_ON)
            } else {
                (Some(o.price), o.place)
            }
        }
    }
}
