//! The part of the window's memory that is in use.

ghost use Rattle.std.specs.Prelude.{◌≡◌, ℕ, ◌+◌, ◌-◌, ◌<◌, ◌≤◌, true, false, length, ◌⊎◌, Some, ◌↔◌, IsTrue};
ghost use Rattle.std.specs.List.{slice_get, slice_range};
ghost use Rattle.price.specs.History.{History, moved, put_in, Accepts, gap, Told};
ghost use Rattle.price.specs.Keeping.{Judged, Kept};

use super::{Entry, Price};

/// The entries from `front` up to `back` are kept, the farthest and cheapest first. The window
/// stands at `position`, `last` is the position of the last entry put in, and `limit` the widest
/// gap.
#[derive(Clone, Copy)]
pub(super) struct Span {
    front: usize,
    back: usize,
    position: u32,
    last: u32,
    limit: u32,
}

impl Span {
    ghost use Rattle.price.specs.Spanning.{Starts, Takes, Spans};

    // Nothing kept, and every position still to come.
    pub(super) fn start(limit: u32) -> Span
        ensures { Starts result limit }
    {
        Span {
            front: 0,
            back: 0,
            position: u32::MAX,
            last: u32::MAX,
            limit,
        }
    }

    // Whether an entry at `position` may be put in from `from`, into memory for so many entries.
    pub(super) fn takes(self, from: u32, position: u32, memory: usize) -> bool
        ensures { IsTrue result ↔ Takes self from position memory }
    {
        from <= self.position && from < position && position <= self.last && self.back < memory
    }

    // Whether `from` lies after the position reached.
    pub(super) fn has_passed(self, from: u32) -> bool
        ensures { IsTrue result ↔ (self.position < from) }
    {
        self.position < from
    }

    // The part of the memory that is in use, as far as it lies in the memory.
    // Stays: no ghost fields say that all of it does. Beside the `&mut` of a window they would keep
    // callers from putting it into an `Option` or a tuple, whose borrows are then not covered.
    fn kept<P>(self, entries: &[Entry<P>]) -> &[Entry<P>]
        ensures part { self.front ≤ self.back → self.back ≤ length entries.now →
            result.now ≡ slice_range entries.now self.front self.back }
        ensures few { length result.now ≤ self.back }
        ensures ends { 0 < length result.now → self.front + length result.now ≤ length entries.now }
    {
        let back = self.back.min(entries.len());
        let front = self.front.min(back);
        &entries[front..back]
    }

    // Puts an entry in the place of those that are no cheaper.
    pub(super) fn keep<P: Price>(self, entries: &mut [Entry<P>], from: u32, near: Entry<P>) -> Span
        requires { self.back < length entries.old }
        ensures { (h : History P) → Spans P.pricing P.meaning entries.old self h →
            Accepts h from near →
            Spans P.pricing P.meaning entries.new result (put_in h from near) }
    {
        let kept = self.kept(entries);
        let place = self.back - (kept.len() - cheaper(kept, from, near));
        entries[place] = near;
        Span {
            front: self.front,
            back: place + 1,
            position: from,
            last: near.position,
            limit: self.limit,
        }
    }

    // The span from `from` on, and the entry at its front.
    // Stays: tried `&*self.entries` and its like; no rule lends a slice in a field of `self` as a `&`.
    pub(super) fn lead<P: Price>(
        self,
        entries: &mut [Entry<P>],
        from: u32,
    ) -> (Span, Option<Entry<P>>)
        ensures same { entries.new ≡ entries.old }
        ensures tells { (h : History P) → from ≤ h.position →
            Spans P.pricing P.meaning entries.old self h →
            Spans P.pricing P.meaning entries.old result.0 (moved h from)
            × Told P.pricing P.meaning (moved h from) result.1 }
    {
        let kept = self.kept(entries);
        let past = passed_over(kept, from, self.limit);
        let led = Span {
            front: self.front + past,
            back: self.back,
            position: from,
            last: self.last,
            limit: self.limit,
        };
        (led, kept.get(past).copied())
    }
}

// How many of the entries kept are cheaper from here than a new one: those up to the last that is.
fn cheaper<P: Price>(kept: &[Entry<P>], from: u32, near: Entry<P>) -> usize
    ensures high { result ≤ length kept.now }
    ensures dropped { (a : ℕ) (d : Entry P) → result ≤ a → slice_get kept.now a ≡ Some d →
        Judged P.pricing P.meaning from near d true }
    ensures stopped { (d : Entry P) → 0 < result → slice_get kept.now (result - 1) ≡ Some d →
        Judged P.pricing P.meaning from near d false }
{
    let last = kept.iter().rposition(|e| !near.no_dearer(*e, from));
    last.map_or(0, |last| last + 1)
}

// Whether the entry behind the front costs no more than the front.
fn tied<P: Price>(kept: &[Entry<P>], from: u32) -> bool
    ensures next { IsTrue result → 1 < length kept.now }
    ensures judged { (e d : Entry P) → slice_get kept.now 0 ≡ Some e →
        slice_get kept.now 1 ≡ Some d → Judged P.pricing P.meaning from d e result }
{
    match kept {
        [front, next, ..] => next.no_dearer(*front, from),
        _ => false,
    }
}

// How many stand before the first that is within the limit and cheaper than the next.
fn passed_over<P: Price>(kept: &[Entry<P>], from: u32, limit: u32) -> usize
    ensures high { result ≤ length kept.now }
    ensures over { (a : ℕ) (e : Entry P) → a < result → slice_get kept.now a ≡ Some e →
        (limit < gap from e) ⊎ ((d : Entry P) × (slice_get kept.now (a + 1) ≡ Some d)
        × Judged P.pricing P.meaning from d e true) }
    ensures within { (e : Entry P) → slice_get kept.now result ≡ Some e → gap from e ≤ limit }
    ensures dearer { (e d : Entry P) → slice_get kept.now result ≡ Some e →
        slice_get kept.now (result + 1) ≡ Some d → Judged P.pricing P.meaning from d e false }
{
    for (i, e) in kept.iter().enumerate() {
        if e.within(from, limit) && !tied(&kept[i..], from) {
            return i;
        }
    }
    kept.len()
}
