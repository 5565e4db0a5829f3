//! Tables over the places of a score, by which those that hold one byte are found.

ghost use Rattle.std.specs.Prelude.{◌≡◌, ◌≤◌, map, length};
ghost use Rattle.search.specs.Tables.{Linked, Marks, Ranked};

use super::tally::Tally;
use notation::Symbol;

/// A score's symbols with the tables over its places: the mark of its byte below each place, which
/// is one more than the last earlier place that holds the byte, or 0; how many later places hold the
/// byte; and the mark of each byte below the end.
// Stays: a mark of 0 for none, since an array of options is twice as large.
#[derive(Drop)]
pub(crate) struct Ground<'a, S: Symbol> {
    pub(crate) tally: Tally<'a, S>,
    pub(crate) tracks: usize,
    pub(crate) previous: &'a [u32],
    pub(crate) after: &'a [u16],
    pub(crate) last: &'a [u32; 256],
    ghost linked: { Linked (map S.byte tally.cells.now) previous.now (length (map S.byte tally.cells.now)) },
    ghost ranked: { Ranked (map S.byte tally.cells.now) after.now (length (map S.byte tally.cells.now)) },
    ghost marks: { Marks (map S.byte tally.cells.now) last.now (length (map S.byte tally.cells.now)) },
    ghost long_previous: { length previous.now ≡ length (map S.byte tally.cells.now) },
    ghost long_after: { length tally.cells.now ≤ length after.now },
    ghost some_track: { 1 ≤ tracks },
    ghost few_tracks: { tracks ≤ 16 },
}

// Links each place to the last one before it that holds the same byte, and tells the mark of each
// byte below the end.
pub(crate) fn link_places<S: Symbol>(tally: &Tally<S>, previous: &mut [u32]) -> [u32; 256]
    requires { length tally.now.cells.now ≤ length previous.old }
    ensures linked { Linked (map S.byte tally.now.cells.now) previous.new (length (map S.byte tally.now.cells.now)) }
    ensures marks { Marks (map S.byte tally.now.cells.now) result (length (map S.byte tally.now.cells.now)) }
{
    let mut last = [0u32; 256];
    // Stays: tried `zip` with `iter_mut`, of whose writes the library tells no element.
    for (p, s) in tally.cells.iter().enumerate() {
        let b = s.write() as usize;
        previous[p] = last[b];
        last[b] = p as u32 + 1;
    }
    last
}

// Counts for each place the later ones that hold the same byte.
pub(crate) fn count_later<S: Symbol>(tally: &Tally<S>, after: &mut [u16])
    requires { length tally.now.cells.now ≤ length after.old }
    ensures { Ranked (map S.byte tally.now.cells.now) after.new (length (map S.byte tally.now.cells.now)) }
{
    let mut left = tally.counts;
    // Stays: tried `zip` with `iter_mut`, of whose writes the library tells no element.
    for (p, s) in tally.cells.iter().enumerate() {
        let b = s.write() as usize;
        left[b] -= 1;
        after[p] = left[b] as u16;
    }
}
