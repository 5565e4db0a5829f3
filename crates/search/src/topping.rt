//! The cheapest rest of a row.

ghost use Rattle.std.specs.Prelude.{◌≡◌, ℕ, ◌+◌, ◌≤◌, map, length, ℤ, sum_by, count_by, Option, nat_eq};
ghost use Rattle.splitting.specs.Score.{Question};
ghost use Rattle.search.specs.Resting.{Posed, Wanted, RowsRight};
ghost use Rattle.search.specs.Rows.{value};
ghost use Rattle.search.specs.Sheets.{Room, AsLong};
ghost use Rattle.search.specs.Topmost.{Shallow, Topmost, BestUnder};

use super::row::Row;
use super::rows::fill_rows;
use super::sheets::Sheets;
use super::table::Ground;
use super::wanting::Want;
use notation::Symbol;
use price::Price;

/// A price, and the place that it stands at.
#[derive(Clone, Copy)]
pub(crate) struct Best<P> {
    pub(crate) price: P,
    pub(crate) place: usize,
}

// The better of the best so far and an earlier place, which wins where they cost the same.
fn better<P: Price>(best: Option<Best<P>>, price: Option<P>, place: usize) -> Option<Best<P>>
    ensures { (row : ℕ → Option P) → Shallow P.pricing P.meaning row → row place ≡ price → Topmost P.pricing P.meaning row best (place + 1) → Topmost P.pricing P.meaning row result place }
{
    let Some(here) = price else {
        return best;
    };
    let Some(there) = best else {
        return Some(Best { price: here, place });
    };
    if here.not_above(there.price) {
        Some(Best { price: here, place })
    } else {
        Some(there)
    }
}

// The cheapest price of a row, at the earliest place that has it.
pub(crate) fn best_of<S: Symbol, P: Price>(
    ground: &Ground<S>,
    row: Row,
    prices: &[Option<P>],
) -> Option<Best<P>>
    requires { row.offset + count_by (nat_eq row.byte) (map S.byte ground.now.tally.cells.now) ≤ length prices.now }
    ensures { Shallow P.pricing P.meaning (value (map S.byte ground.now.tally.cells.now) row.byte row.offset prices.now) → Topmost P.pricing P.meaning (value (map S.byte ground.now.tally.cells.now) row.byte row.offset prices.now) result 0 }
{
    let mut best = None;
    for place in ground.places(row.byte) {
        best = better(best, ground.price_at(row, prices, place), place);
    }
    best
}

// Fills the rows of all notes under one transposition, and tells the cheapest rest of the whole
// query, of equals the one that begins earliest.
pub(crate) fn best_under<S: Symbol, P: Price>(
    ground: &Ground<S>,
    want: Want<'_>,
    limit: u32,
    sheets: &mut Sheets<P>,
) -> Option<Best<P>>
    requires { Room (sum_by (λ b. count_by (nat_eq b) (map S.byte ground.now.tally.cells.now)) want.bytes.now) sheets.old }
    ensures as_long { AsLong sheets.old sheets.new }
    ensures rows { RowsRight P.pricing P.meaning (map S.byte ground.now.tally.cells.now) ground.now.tracks limit want.entry.bytes.now sheets.new.prices.now sheets.new.steps.now 0 }
    ensures best { (ask : Question) (c : ℤ) → Posed ask (map S.byte ground.now.tally.cells.now) ground.now.tracks → ask.limit ≡ limit → Wanted ask c want.entry.bytes.now → BestUnder P.pricing P.meaning ask c ground.now.tracks result }
{
    let row = fill_rows(ground, want, limit, sheets);
    let prices = &mut *sheets.prices;
    best_of(ground, row, prices)
}
