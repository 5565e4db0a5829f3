//! Symbols in the shape of a score.

ghost use Rattle.std.specs.Prelude.{◌≡◌, ◌*◌, ◌/◌, ◌≤◌, true, false, length, MatchBool};
ghost use Rattle.book.specs.Grids.{in_grid};

/// Symbols column after column, track 1 first, in the shape of a score: 1 to 16 tracks, at most
/// 4,096 columns, whole columns.
#[derive(Drop)]
pub struct Grid<'a, S> {
    pub(crate) symbols: &'a [S],
    pub(crate) tracks: usize,
    pub(crate) columns: usize,
    ghost some_track: { 1 ≤ tracks },
    ghost few_tracks: { tracks ≤ 16 },
    ghost few_columns: { columns ≤ 4096 },
    ghost whole: { length symbols.now ≡ columns * tracks },
}

impl<'a, S> Grid<'a, S> {
    /// Whether symbols have the shape of a score of so many tracks.
    pub fn fits(tracks: usize, symbols: &[S]) -> bool
        ensures { result ≡ in_grid tracks (length symbols.now) }
    {
        1 <= tracks && tracks <= 16 && symbols.len() % tracks == 0 && symbols.len() / tracks <= 4096
    }

    // Stays: this public call promises a grid, and an `Option` would ask its callers for a case more.
    /// The grid of symbols that have the shape of a score, and of others the grid of one track and
    /// no column.
    pub fn new(tracks: usize, symbols: &'a [S]) -> Grid<'a, S>
        ensures { MatchBool (in_grid tracks (length symbols.now)) ((result.tracks ≡ tracks) × (result.columns ≡ length symbols.now / tracks) × (result.symbols.now ≡ symbols.now)) ((result.tracks ≡ 1) × (result.columns ≡ 0)) }
    {
        if !Self::fits(tracks, symbols) {
            return Grid {
                symbols: &symbols[0..0],
                tracks: 1,
                columns: 0,
            };
        }
        Grid {
            symbols,
            tracks,
            columns: symbols.len() / tracks,
        }
    }

    pub fn tracks(&self) -> usize
        ensures { result ≡ self.now.tracks }
    {
        self.tracks
    }

    /// The symbols, column after column.
    pub fn symbols(&self) -> &[S]
        ensures { result.now ≡ self.now.symbols.now }
    {
        self.symbols
    }
}
