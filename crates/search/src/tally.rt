//! How often each byte occurs among symbols.

ghost use Rattle.std.specs.Prelude.{◌≡◌, ℕ, ◌<◌, ◌≤◌, true, false, map, length, count_by, nat_eq, slice_index};
ghost use Rattle.search.specs.Workspace.{Counted};

use book::Grid;
use notation::Symbol;

/// A score's symbols, column after column, and how often each byte occurs among them.
#[derive(Drop)]
pub(crate) struct Tally<'a, S: Symbol> {
    pub(crate) cells: &'a [S],
    pub(crate) counts: [u32; 256],
    ghost few: { length cells.now ≤ 65536 },
    ghost counted: { Counted counts (map S.byte cells.now) },
}

impl<'a, S: Symbol> Tally<'a, S> {
    /// The tally of the symbols of a grid.
    pub(crate) fn new(grid: &'a Grid<'_, S>) -> Tally<'a, S>
        ensures { result.cells.now ≡ grid.now.symbols.now }
    {
        let cells = grid.symbols();
        let mut counts = [0u32; 256];
        for s in cells {
            counts[s.write() as usize] += 1;
        }
        Tally { cells, counts }
    }

    /// How often a byte occurs.
    pub(crate) fn count(&self, byte: u8) -> usize
        ensures is { result ≡ count_by (nat_eq byte) (map S.byte self.now.cells.now) }
        ensures few { result ≤ 65536 }
    {
        self.counts[byte as usize] as usize
    }

    /// Whether every byte that is wanted occurs.
    pub(crate) fn holds_all(&self, want: &[u8]) -> bool
        ensures each { result ≡ true → (k : ℕ) → k < length want.now → 0 < count_by (nat_eq (slice_index want.now k)) (map S.byte self.now.cells.now) }
        ensures lacking { result ≡ false → (k : ℕ) × (k < length want.now) × (count_by (nat_eq (slice_index want.now k)) (map S.byte self.now.cells.now) ≡ 0) }
    {
        want.iter().all(|b| self.count(*b) > 0)
    }
}
