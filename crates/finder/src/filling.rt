//! Filling a score from a book, and writing it as one.

ghost use Rattle.std.specs.Prelude.{◌≡◌, ◌*◌, ◌≤◌, map, length};
ghost use Rattle.book.specs.Grids.{Grid as Held, spelled, bytes_of};
ghost use Rattle.book.specs.Reading.{Holds};
ghost use Rattle.book.specs.Writing.{Written};
ghost use Rattle.finder.specs.Edits.{book_columns};
ghost use Rattle.finder.specs.ScoreRules.{fill_refusal};
ghost use Rattle.search.specs.Questions.{spelled as columns_spelled};
ghost use Rattle.finder.specs.Scores.{columns_held, Changed, HoldsAgain, WrittenAgain, Spelled, score_grid};

use super::score::Score;
use super::score_fault::ScoreFault;
use book::{Book, Grid, TooShort};
use notation::Symbol;

impl<S: Symbol> Score<S> {
    /// Puts a book's columns in the place of all. The whole book is checked before the first symbol
    /// is written.
    pub fn fill(&mut self, input: &[u8]) -> Result<(), ScoreFault>
        ensures change { Changed S.byte (fill_refusal S.kind self.old.tracks self.old.capacity input.now) (book_columns input.now) self.old self.new result }
        ensures again { HoldsAgain S.kind S.byte input.now self.old self.new result }
        ensures written { WrittenAgain S.kind S.byte input.now self.old self.new result }
    {
        let book = Book::<S>::read(input)?;
        let tracks = book.tracks();
        if tracks != self.tracks {
            return Err(ScoreFault::OtherTracks { tracks });
        }
        let capacity = self.capacity;
        let columns = book.columns();
        if columns > capacity {
            return Err(ScoreFault::NoRoom { capacity });
        }
        let used = columns * tracks;
        copy_symbols(&book, tracks, &mut self.memory[0..used]);
        self.columns = columns;
        Ok(())
    }

    /// Writes the score as a book to the front of an output, or tells the bytes needed.
    pub fn write(&self, out: &mut [u8]) -> Result<usize, TooShort>
        ensures written { Written (bytes_of S.kind (score_grid S.byte self.now)) out.old out.new result }
        ensures spelled { Spelled S.kind S.byte self.now }
    {
        self.grid().write(out)
    }

    // The columns held, as a grid.
    pub(crate) fn grid(&self) -> Grid<'_, S>
        ensures grid { spelled S.byte result.tracks result.columns result.symbols.now ≡ score_grid S.byte self.now }
        ensures columns { columns_spelled S.byte result ≡ columns_held S.byte self.now }
    {
        let used = self.columns * self.tracks;
        Grid::new(self.tracks, &self.memory[0..used])
    }
}

/// Copies the symbols of a book of so many tracks to memory of as many symbols.
fn copy_symbols<S: Symbol>(book: &Book<'_, S>, tracks: usize, memory: &mut [S])
    requires { 1 ≤ tracks }
    ensures { (g : Held) → Holds S.kind book.now g → g.tracks ≡ tracks → length memory.old ≡ g.columns * g.tracks → map S.byte memory.new ≡ g.cells }
{
    for i in 0..memory.len() {
        // Stays: a loop over columns and one over tracks would be two functions, and no shorter.
        if let Some(symbol) = book.symbol(i / tracks + 1, i % tracks + 1) {
            memory[i] = symbol;
        }
    }
}
