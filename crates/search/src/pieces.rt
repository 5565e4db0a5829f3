//! The pieces of a rest, written by following the steps of the rows.

ghost use Rattle.std.specs.Prelude.{◌≡◌, ◌≤◌, List, map, length, ℤ, sum_by, count_by, Option, nat_eq};
ghost use Rattle.splitting.specs.Score.{Question};
ghost use Rattle.search.specs.Rows.{column_of, track_of};
ghost use Rattle.search.specs.Topmost.{place_at};
ghost use Rattle.search.specs.Trails.{Trail, Written, Leading};

use super::choosing::GOING_ON;
use super::table::Ground;
use super::wanting::Want;
use notation::Symbol;
use price::Price;
use splitting::{Piece, Place};

impl<'a, S: Symbol> Ground<'a, S> {
    /// The column and the track of a place, both counted from 1.
    pub(crate) fn place_of(&self, place: usize) -> Place
        requires { place ≤ 65536 }
        ensures { result ≡ place_at self.now.tracks place }
    {
        Place {
            column: place / self.tracks + 1,
            track: place % self.tracks + 1,
        }
    }

    // A piece of one note, which lies at a place.
    fn lone(&self, first: usize, place: usize) -> Piece
        requires { place ≤ 65536 }
        ensures { result ≡ record { first = first; len = 1; track = track_of self.now.tracks place; column = column_of self.now.tracks place } }
    {
        let at = self.place_of(place);
        Piece {
            first,
            len: 1,
            track: at.track,
            column: at.column,
        }
    }
}

// Follows the steps of the rows from a place of the first note, writes the pieces that they lead
// through into the front of the list, and tells their number.
pub(crate) fn write_pieces<S: Symbol, P: Price>(
    ground: &Ground<S>,
    want: Want<'_>,
    steps: &[u32],
    start: usize,
    list: &mut [Piece],
) -> usize
    requires room_list { length want.bytes.now ≤ length list.old }
    requires room_steps { sum_by (λ b. count_by (nat_eq b) (map S.byte ground.now.tally.cells.now)) want.bytes.now ≤ length steps.now }
    requires leading { Leading P.pricing P.meaning (map S.byte ground.now.tally.cells.now) ground.now.tracks want.bytes.now steps.now start }
    ensures { (ask : Question) (c : ℤ) (prices : List (Option P)) (a : P) → Trail P.pricing P.meaning (map S.byte ground.now.tally.cells.now) ground.now.tracks want.entry.bytes.now steps.now start ask c prices a → Written P.pricing ask c (place_at ground.now.tracks start) (P.meaning a) result list.old list.new }
{
    let mut offset = ground.first_offset(want);
    let mut place = start;
    let mut open = ground.lone(1, start);
    let mut count = 0;
    for byte in &want.bytes[1..] {
        let step = steps[offset + ground.after[place] as usize];
        offset -= ground.tally.count(*byte);
        if step == GOING_ON {
            place += ground.tracks;
            open.len += 1;
        } else {
            list[count] = open;
            count += 1;
            place = step as usize;
            open = ground.lone(open.first + open.len, place);
        }
    }
    list[count] = open;
    count + 1
}
