//! All rows of the search under one transposition.

ghost use Rattle.std.specs.Prelude.{◌≡◌, ◌+◌, ◌^◌, ◌<◌, ◌≤◌, map, length, sum_by, count_by, nat_eq, slice_index};
ghost use Rattle.search.specs.Resting.{offset_of, RowsRight};
ghost use Rattle.search.specs.Sheets.{Room, AsLong};

use super::row::{Row, fill_last, fill_row};
use super::sheets::Sheets;
use super::table::Ground;
use super::wanting::Want;
use notation::Symbol;
use price::Price;

impl<'a, S: Symbol> Ground<'a, S> {
    // The row of a note that wants a byte, behind the row of the next note.
    fn row_before(&self, byte: u8, next: Row) -> Row
        requires { next.offset + count_by (nat_eq next.byte) (map S.byte self.now.tally.cells.now) < 2 ^ 64 }
        ensures { result ≡ record { byte = byte; offset = next.offset + count_by (nat_eq next.byte) (map S.byte self.now.tally.cells.now) } }
    {
        Row {
            byte,
            offset: next.offset + self.tally.count(next.byte),
        }
    }

    /// Where the row of the first note begins: behind those of all others.
    pub(crate) fn first_offset(&self, want: Want<'_>) -> usize
        requires { offset_of (map S.byte self.now.tally.cells.now) want.bytes.now 0 < 2 ^ 64 }
        ensures { result ≡ offset_of (map S.byte self.now.tally.cells.now) want.entry.bytes.now 0 }
    {
        want.bytes[1..].iter().map(|b| self.tally.count(*b)).sum()
    }
}

// Fills the rows of all notes, from the last one to the first, where each wants a byte, and tells
// the row of the first.
pub(crate) fn fill_rows<S: Symbol, P: Price>(
    ground: &Ground<S>,
    want: Want<'_>,
    limit: u32,
    sheets: &mut Sheets<P>,
) -> Row
    requires { Room (sum_by (λ b. count_by (nat_eq b) (map S.byte ground.now.tally.cells.now)) want.bytes.now) sheets.old }
    ensures as_long { AsLong sheets.old sheets.new }
    ensures first { result ≡ record { byte = slice_index want.entry.bytes.now 0; offset = offset_of (map S.byte ground.now.tally.cells.now) want.entry.bytes.now 0 } }
    ensures rows { RowsRight P.pricing P.meaning (map S.byte ground.now.tally.cells.now) ground.now.tracks limit want.entry.bytes.now sheets.new.prices.now sheets.new.steps.now 0 }
{
    let last = want.bytes.len() - 1;
    let mut row = Row {
        byte: want.bytes[last],
        offset: 0,
    };
    fill_last(ground, row, sheets.prices);
    for byte in want.bytes[..last].iter().rev() {
        let next = row;
        row = ground.row_before(*byte, next);
        fill_row(ground, row, next, limit, sheets);
    }
    row
}
