//! The cheapest rest of a query over all candidate transpositions.

ghost use Rattle.std.specs.Prelude.{◌≡◌, ℕ, ◌+◌, ◌<◌, ◌≤◌, true, false, List, map, length, Some, slice_index};
ghost use Rattle.notation.specs.Kind.{Kind};
ghost use Rattle.notation.specs.declared.mode.Mode.{Mode};
ghost use Rattle.splitting.specs.Score.{Question, note};
ghost use Rattle.splitting.specs.Laws.{Covered};
ghost use Rattle.search.specs.Candidates.{Asked, UnderCandidate, Ready, Decided, Among, BestOfAll, OfAll, Settles};
ghost use Rattle.search.specs.Sheets.{AsLong};

use super::question::Asking;
use super::rows::fill_rows;
use super::sheets::Sheets;
use super::table::Ground;
use super::topping::best_under;
use super::wanting::{Want, want_bytes};
use notation::Symbol;
use price::Price;

/// A price, the place that it stands at, and the transposition that it stands under.
#[derive(Clone, Copy)]
pub(crate) struct Choice<P> {
    pub(crate) price: P,
    pub(crate) place: usize,
    pub(crate) shift: i32,
}

// Whether a choice is preferred to another: it is cheaper, or as cheap and at no later place.
fn comes_first<P: Price>(one: Choice<P>, other: Choice<P>) -> bool
    ensures { P.pricing.depth (P.meaning one.price) ≤ 63 → P.pricing.depth (P.meaning other.price) ≤ 63 → Decided P.pricing P.meaning one other result }
{
    one.price.not_above(other.price)
        && (one.place <= other.place || !other.price.not_above(one.price))
}

// The better of two choices: the cheaper one, of equals the one at the earlier place.
fn preferred<P: Price>(one: Option<Choice<P>>, other: Option<Choice<P>>) -> Option<Choice<P>>
    ensures under { (k : Kind) (mode : Mode) (bytes : List ℕ) (first : ℕ) → UnderCandidate k mode bytes first one → UnderCandidate k mode bytes first other → UnderCandidate k mode bytes first result }
    ensures best { (ask : Question) (tracks low mid high : ℕ) → Covered ask → 1 ≤ tracks → Among P.pricing P.meaning ask tracks low mid one → Among P.pricing P.meaning ask tracks mid high other → Among P.pricing P.meaning ask tracks low high result }
{
    let Some(a) = one else {
        return other;
    };
    let Some(b) = other else {
        return Some(a);
    };
    if comes_first(a, b) { Some(a) } else { Some(b) }
}

// The cheapest rest of the whole query under the candidate that leads from the first note to a byte.
fn best_to<S: Symbol, P: Price>(
    ground: &Ground<S>,
    asking: &Asking<S>,
    b: u8,
    want: &mut [u8],
    sheets: &mut Sheets<P>,
) -> Option<Choice<P>>
    requires { Ready S.kind asking.now.mode (map S.byte ground.now.tally.cells.now) (map S.byte asking.now.query.notes.now) (length want.old) sheets.old }
    ensures as_long { AsLong sheets.old sheets.new }
    ensures under { UnderCandidate S.kind asking.now.mode (map S.byte ground.now.tally.cells.now) (note (map S.byte asking.now.query.notes.now) 1) result }
    ensures best { (ask : Question) → Asked ask (map S.byte ground.now.tally.cells.now) ground.now.tracks S.kind asking.now.mode asking.now.limit (map S.byte asking.now.query.notes.now) → Among P.pricing P.meaning ask ground.now.tracks b (b + 1) result }
{
    let by = ground.tally.candidate_to(asking.mode, &asking.query, b)?;
    if !want_bytes(asking.query.notes, by, want) {
        return None;
    }
    let want = Want { bytes: want };
    if !ground.tally.holds_all(want.bytes) {
        return None;
    }
    let best = best_under(ground, want, asking.limit, sheets)?;
    Some(Choice {
        price: best.price,
        place: best.place,
        shift: by,
    })
}

// The cheapest rest of the whole query over all candidates, of equals the one that begins earliest.
pub(crate) fn best_of_all<S: Symbol, P: Price>(
    ground: &Ground<S>,
    asking: &Asking<S>,
    want: &mut [u8],
    sheets: &mut Sheets<P>,
) -> Option<Choice<P>>
    requires { Ready S.kind asking.now.mode (map S.byte ground.now.tally.cells.now) (map S.byte asking.now.query.notes.now) (length want.old) sheets.old }
    ensures as_long { AsLong sheets.old sheets.new }
    ensures under { UnderCandidate S.kind asking.now.mode (map S.byte ground.now.tally.cells.now) (note (map S.byte asking.now.query.notes.now) 1) result }
    ensures best { (ask : Question) → Asked ask (map S.byte ground.now.tally.cells.now) ground.now.tracks S.kind asking.now.mode asking.now.limit (map S.byte asking.now.query.notes.now) → OfAll P.pricing P.meaning ask ground.now.tracks result }
{
    let mut best = None;
    for b in u8::MIN..=u8::MAX {
        let here = best_to(ground, asking, b, want, sheets);
        best = preferred(best, here);
    }
    best
}

// Fills the rows of all notes again, under the transposition of a choice, and tells it at the
// price that the row of the first has at its place.
pub(crate) fn refill<S: Symbol, P: Price>(
    ground: &Ground<S>,
    asking: &Asking<S>,
    choice: Choice<P>,
    want: &mut [u8],
    sheets: &mut Sheets<P>,
) -> Option<Choice<P>>
    requires ready { Ready S.kind asking.now.mode (map S.byte ground.now.tally.cells.now) (map S.byte asking.now.query.notes.now) (length want.old) sheets.old }
    requires under { UnderCandidate S.kind asking.now.mode (map S.byte ground.now.tally.cells.now) (note (map S.byte asking.now.query.notes.now) 1) (Some choice) }
    ensures as_long { AsLong sheets.old sheets.new }
    ensures settles { (ask : Question) → Asked ask (map S.byte ground.now.tally.cells.now) ground.now.tracks S.kind asking.now.mode asking.now.limit (map S.byte asking.now.query.notes.now) → BestOfAll P.pricing P.meaning ask ground.now.tracks choice → Settles P.pricing P.meaning ask ground.now.tracks (map S.byte ground.now.tally.cells.now) asking.now.limit want.new sheets.new.prices.now sheets.new.steps.now result }
{
    if !want_bytes(asking.query.notes, choice.shift, want) {
        return None;
    }
    let want = Want { bytes: want };
    let row = fill_rows(ground, want, asking.limit, sheets);
    let prices = &mut *sheets.prices;
    let price = ground.price_at(row, prices, choice.place)?;
    Some(Choice { price, ..choice })
}

// The cheapest rest of the whole query over all candidates, of equals the one that begins earliest,
// with the rows under its transposition.
// Stays: of a struct of all four, each method would have to say which of its parts it leaves.
pub(crate) fn settle<S: Symbol, P: Price>(
    ground: &Ground<S>,
    asking: &Asking<S>,
    want: &mut [u8],
    sheets: &mut Sheets<P>,
) -> Option<Choice<P>>
    requires { Ready S.kind asking.now.mode (map S.byte ground.now.tally.cells.now) (map S.byte asking.now.query.notes.now) (length want.old) sheets.old }
    ensures as_long { AsLong sheets.old sheets.new }
    ensures settles { (ask : Question) → Asked ask (map S.byte ground.now.tally.cells.now) ground.now.tracks S.kind asking.now.mode asking.now.limit (map S.byte asking.now.query.notes.now) → Settles P.pricing P.meaning ask ground.now.tracks (map S.byte ground.now.tally.cells.now) asking.now.limit want.new sheets.new.prices.now sheets.new.steps.now result }
{
    let best = best_of_all(ground, asking, want, sheets)?;
    refill(ground, asking, best, want, sheets)
}
