//! One row of the search: the rests of one note at all places where it matches.

ghost use Rattle.std.specs.Prelude.{◌≡◌, ℕ, suc, ◌+◌, ◌-◌, ◌/◌, ◌<◌, ◌≤◌, true, ◌&&◌, List, map, length, ℤ, None, count_by, ◌==◌, nat_eq, nat_lt, slice_index, slice_index_or, slice_set};
ghost use Rattle.notation.specs.Kind.{rest};
ghost use Rattle.price.specs.History.{History};
ghost use Rattle.splitting.specs.Score.{Question};
ghost use Rattle.search.specs.Resting.{Posed, Wants, NextNotes, LeastRow, LeadingRow, step_at};
ghost use Rattle.search.specs.Rows.{value, Fed, Onward};
ghost use Rattle.search.specs.Sheets.{Room, AsLong};

use super::choosing::{choose, hand_over};
use super::sheets::Sheets;
use super::table::Ground;
use notation::Symbol;
use price::{Entry, Price, Window};

/// The places at which a note matches: those that hold a byte. The prices of the note's rests there
/// stand in a sheet from `offset` on, that of the last place first.
#[derive(Clone, Copy)]
pub(crate) struct Row {
    pub(crate) byte: u8,
    pub(crate) offset: usize,
}

impl<'a, S: Symbol> Ground<'a, S> {
    // Whether a place holds a byte.
    fn holds(&self, place: usize, wanted: u8) -> bool
        ensures { result ≡ (nat_lt place (length (map S.byte self.now.tally.cells.now)) && slice_index_or (map S.byte self.now.tally.cells.now) place rest == wanted) }
    {
        place < self.tally.cells.len() && self.tally.cells[place].write() == wanted
    }

    /// The price of the rest from a place, where there is one.
    pub(crate) fn price_at<P: Price>(
        &self,
        row: Row,
        prices: &[Option<P>],
        place: usize,
    ) -> Option<P>
        requires { row.offset + count_by (nat_eq row.byte) (map S.byte self.now.tally.cells.now) ≤ length prices.now }
        ensures { result ≡ value (map S.byte self.now.tally.cells.now) row.byte row.offset prices.now place }
    {
        if !self.holds(place, row.byte) {
            return None;
        }
        prices[row.offset + self.after[place] as usize]
    }
}

// Takes the places of a row that lie after a column into the window, and tells the mark below
// which those that are left lie.
fn take_in<S: Symbol, P: Price>(
    window: &mut Window<P>,
    ground: &Ground<S>,
    row: Row,
    prices: &[Option<P>],
    from: usize,
    start: usize,
) -> usize
    requires room { row.offset + count_by (nat_eq row.byte) (map S.byte ground.now.tally.cells.now) ≤ length prices.now }
    requires from_small { from ≤ 65536 }
    requires start_within { start ≤ length ground.now.tally.cells.now }
    requires start_marked { 0 < start → slice_index_or (map S.byte ground.now.tally.cells.now) (start - 1) rest ≡ row.byte }
    ensures low { result ≤ start }
    ensures holds { 0 < result → (slice_index_or (map S.byte ground.now.tally.cells.now) (result - 1) rest ≡ row.byte) × ((result - 1) / ground.now.tracks < from) }
    ensures fed { (h : History P) → Fed P.pricing P.meaning (map S.byte ground.now.tally.cells.now) ground.now.tracks row.byte (value (map S.byte ground.now.tally.cells.now) row.byte row.offset prices.now) window.old start h → from ≤ h.position → (h' : History P) × Fed P.pricing P.meaning (map S.byte ground.now.tally.cells.now) ground.now.tracks row.byte (value (map S.byte ground.now.tally.cells.now) row.byte row.offset prices.now) window.new result h' × Onward from h h' }
{
    let mut ahead = start;
    // Stays: a `while`, since the places that are left are taken in for an earlier column.
    while ahead > 0 && (ahead - 1) / ground.tracks >= from {
        let place = ahead - 1;
        if let Some(price) = ground.price_at(row, prices, place) {
            let entry = Entry {
                position: (place / ground.tracks + 1) as u32,
                place: place as u32,
                price,
            };
            let _ = window.put(from as u32, entry);
        }
        ahead = ground.previous[place] as usize;
    }
    ahead
}

// Writes an entry of a sheet.
// Stays: tried a write in the loop, which asks for the size of a price, not known there.
fn store<T: Copy>(list: &mut [T], at: usize, value: T)
    requires { at < length list.old }
    ensures { list.new ≡ slice_set list.old at value }
{
    list[at] = value;
}

// Fills the row of a note from that of the next one, which stands before it in the sheets.
pub(crate) fn fill_row<S: Symbol, P: Price>(
    ground: &Ground<S>,
    row: Row,
    next: Row,
    limit: u32,
    sheets: &mut Sheets<P>,
)
    requires rows_apart { next.offset + count_by (nat_eq next.byte) (map S.byte ground.now.tally.cells.now) ≤ row.offset }
    requires room { Room (row.offset + count_by (nat_eq row.byte) (map S.byte ground.now.tally.cells.now)) sheets.old }
    ensures as_long { AsLong sheets.old sheets.new }
    ensures prices_before { (k : ℕ) → k < row.offset → slice_index_or sheets.new.prices.now k None ≡ slice_index_or sheets.old.prices.now k None }
    ensures steps_before { (k : ℕ) → k < row.offset → slice_index sheets.new.steps.now k ≡ slice_index sheets.old.steps.now k }
    ensures right { (ask : Question) (c : ℤ) (i : ℕ) → NextNotes ask c i row.byte next.byte (map S.byte ground.now.tally.cells.now) ground.now.tracks limit → LeastRow P.pricing P.meaning ask (map S.byte ground.now.tally.cells.now) ground.now.tracks c (suc i) next.byte (value (map S.byte ground.now.tally.cells.now) next.byte next.offset sheets.old.prices.now) 0 → LeastRow P.pricing P.meaning ask (map S.byte ground.now.tally.cells.now) ground.now.tracks c i row.byte (value (map S.byte ground.now.tally.cells.now) row.byte row.offset sheets.new.prices.now) 0 × LeadingRow P.pricing P.meaning ask (map S.byte ground.now.tally.cells.now) ground.now.tracks row.byte (value (map S.byte ground.now.tally.cells.now) row.byte row.offset sheets.new.prices.now) (value (map S.byte ground.now.tally.cells.now) next.byte next.offset sheets.old.prices.now) (step_at (map S.byte ground.now.tally.cells.now) row.offset sheets.new.steps.now) 0 }
{
    let prices = &mut *sheets.prices;
    let steps = &mut *sheets.steps;
    let entries = &mut *sheets.window;
    let mut window = Window::new(entries, limit);
    let mut ahead = ground.last[next.byte as usize] as usize;
    for place in ground.places(row.byte) {
        let from = place / ground.tracks + 1;
        ahead = take_in(&mut window, ground, next, prices, from, ahead);
        let on = ground.price_at(next, prices, place + ground.tracks);
        let over = hand_over(&mut window, from as u32);
        let (price, step) = choose(on, over);
        let at = row.offset + ground.after[place] as usize;
        store(prices, at, price);
        steps[at] = step;
    }
}

// Fills the row of the last note: it lies alone wherever it matches.
pub(crate) fn fill_last<S: Symbol, P: Price>(ground: &Ground<S>, row: Row, prices: &mut [Option<P>])
    requires { row.offset + count_by (nat_eq row.byte) (map S.byte ground.now.tally.cells.now) ≤ length prices.old }
    ensures { (ask : Question) (c : ℤ) → Posed ask (map S.byte ground.now.tally.cells.now) ground.now.tracks → Wants ask c (length ask.query) row.byte → LeastRow P.pricing P.meaning ask (map S.byte ground.now.tally.cells.now) ground.now.tracks c (length ask.query) row.byte (value (map S.byte ground.now.tally.cells.now) row.byte row.offset prices.new) 0 }
{
    for place in ground.places(row.byte) {
        let at = row.offset + ground.after[place] as usize;
        store(prices, at, Some(P::empty()));
    }
}
