//! A book as a view on its bytes.

ghost use Rattle.std.specs.Prelude.{◌≡◌, ℕ, true, false, MatchOption};
ghost use Rattle.book.specs.Grids.{Grid};
ghost use Rattle.book.specs.Reading.{Reading, Holds, Told, has_place, byte_place, CellTold};

use super::fault::BookFault;
use super::reader::read_shape;
use notation::Symbol;
use std::marker::PhantomData;

/// A book of the kind `S` that was read: its bytes, as the score that they hold.
#[derive(Drop)]
pub struct Book<'a, S> {
    input: &'a [u8],
    tracks: u8,
    columns: u16,
    kind: PhantomData<S>,
}

impl<'a, S: Symbol> Book<'a, S> {
    /// Reads a book. All of it is checked before anything is told.
    pub fn read(input: &'a [u8]) -> Result<Book<'a, S>, BookFault>
        ensures { Reading S.kind input.now result }
    {
        let shape = read_shape::<S>(input)?;
        Ok(Book {
            input,
            tracks: shape.tracks,
            columns: shape.columns,
            kind: PhantomData,
        })
    }

    pub fn tracks(&self) -> usize
        ensures { (g : Grid) → Holds S.kind self.now g → result ≡ g.tracks }
    {
        usize::from(self.tracks)
    }

    pub fn columns(&self) -> usize
        ensures { (g : Grid) → Holds S.kind self.now g → result ≡ g.columns }
    {
        usize::from(self.columns)
    }

    /// The symbol in a column on a track, both counted from 1; absent where there is no such place.
    pub fn symbol(&self, column: usize, track: usize) -> Option<S>
        ensures { (g : Grid) → Holds S.kind self.now g → Told S.byte g column track result }
    {
        S::read(self.cell(column, track)?)
    }

    /// The byte of a place.
    fn cell(&self, column: usize, track: usize) -> Option<u8>
        ensures { CellTold self.now.input.now self.now.tracks self.now.columns column track result }
    {
        self.input.get(self.place(column, track)?).copied()
    }

    /// Where in the input the byte of a place stands.
    fn place(&self, column: usize, track: usize) -> Option<usize>
        ensures { MatchOption result (has_place self.now.tracks self.now.columns column track ≡ false) (λ at. (has_place self.now.tracks self.now.columns column track ≡ true) × (at ≡ byte_place self.now.tracks column track)) }
    {
        let tracks = self.tracks as usize;
        if column < 1 || column > self.columns as usize || track < 1 || track > tracks {
            return None;
        }
        let a_block = 502 / tracks * tracks;
        let cell = (column - 1) * tracks + (track - 1);
        Some(512 * (1 + cell / a_block) + 6 + cell % a_block)
    }
}
