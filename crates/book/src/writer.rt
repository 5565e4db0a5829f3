//! Writing a score as a book.

ghost use Rattle.std.specs.Prelude.{◌≡◌, ◌+◌, ◌*◌, ◌<◌, ◌≤◌, ◌++◌, map, length, take, drop};
ghost use Rattle.std.specs.Slice.Iter.{chunk_count};
ghost use Rattle.book.specs.Blocks.{block_bytes};
ghost use Rattle.book.specs.Grids.{spelled, bytes_of, blocks_for, column_blocks};
ghost use Rattle.book.specs.Letters.{letter_byte};
ghost use Rattle.book.specs.Writing.{Written};

use super::fault::TooShort;
use super::grid::Grid;
use super::letter::Letter;
use super::sealing::{fill_block, has_room};
use notation::Symbol;

impl<S: Symbol> Grid<'_, S> {
    /// Writes the score as a book to the front of an output, or tells the bytes needed.
    pub fn write(&self, out: &mut [u8]) -> Result<usize, TooShort>
        ensures { Written (bytes_of S.kind (spelled S.byte self.now.tracks self.now.columns self.now.symbols.now)) out.old out.new result }
    {
        let blocks = blocks_for(self.tracks, self.columns);
        let needed = 512 * (1 + blocks);
        has_room(out, needed)?;
        let [high, low] = (self.columns as u16).to_be_bytes();
        write_block::<S>(
            &mut out[0..512],
            Letter::Title,
            0,
            &[self.tracks as u8, high, low],
            &[],
        );
        write_columns::<S>(out, self.symbols, 502 / self.tracks * self.tracks);
        Ok(needed)
    }
}

/// Writes a block of the kind. Its payload is some bytes and then symbols, of which it takes as many
/// as it holds.
fn write_block<S: Symbol>(out: &mut [u8], letter: Letter, number: u16, front: &[u8], symbols: &[S])
    requires { length out.old ≡ 512 }
    ensures { out.new ≡ block_bytes (letter_byte letter) S.kind.number number (take 502 (front.now ++ map S.byte symbols.now)) }
{
    match out.first_chunk_mut::<512>() {
        Some(block) => fill_block::<S>(block, u8::from(letter), number, front, symbols),
        None => unreachable(),
    }
}

/// Writes column blocks after the title, each with so many symbols, the last perhaps with fewer.
fn write_columns<S: Symbol>(out: &mut [u8], symbols: &[S], a_block: usize)
    requires room { 512 * (1 + chunk_count (length symbols.now) a_block) ≤ length out.old }
    requires few { chunk_count (length symbols.now) a_block < 65536 }
    requires some { 0 < a_block }
    requires small { a_block ≤ 502 }
    ensures { out.new ≡ take 512 out.old ++ column_blocks S.kind.number a_block 1 (chunk_count (length symbols.now) a_block) (map S.byte symbols.now) ++ drop (512 * (1 + chunk_count (length symbols.now) a_block)) out.old }
{
    for (m, part) in symbols.chunks(a_block).enumerate() {
        let n = m + 1;
        let block = &mut out[512 * n..512 * n + 512];
        write_block::<S>(block, Letter::Columns, n as u16, &[], part);
    }
}

/// The blocks that hold so many columns, the last of them perhaps not full.
fn blocks_for(tracks: usize, columns: usize) -> usize
    requires { (1 ≤ tracks) × ((tracks ≤ 16) × (columns ≤ 4096)) }
    ensures { (result ≡ blocks_for tracks columns) × (result < 65536) }
{
    columns.div_ceil(502 / tracks)
}
