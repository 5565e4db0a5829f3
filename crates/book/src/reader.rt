//! Reading a book.

ghost use Rattle.std.specs.Prelude.{◌≡◌, ◌/◌, true, false, length, Some, None, MatchResult};
ghost use Rattle.std.specs.Simd.{first_chunks};
ghost use Rattle.book.specs.Books.{whole_blocks, book_refusal, title_shape};
ghost use Rattle.book.specs.Faults.{book_told};
ghost use Rattle.book.specs.declared.fault.BookFault.TheVariants.{Length};

use super::checked::CheckedBlock;
use super::fault::BookFault;
use super::shape::Shape;
use super::stage::Stage;
use notation::Symbol;

/// Checks a whole book, block by block, and tells its shape.
pub(crate) fn read_shape<S: Symbol>(input: &[u8]) -> Result<Shape, BookFault>
    ensures { MatchResult result (λ s. (book_refusal S.kind input.now ≡ None) × (s ≡ title_shape input.now)) (λ f. book_refusal S.kind input.now ≡ Some (book_told f)) }
{
    let blocks = blocks_of(input)?;
    let mut stage = Stage::Title;
    for (n, bytes) in blocks.iter().enumerate() {
        stage = stage.next::<S>(CheckedBlock::new(n, bytes)?)?;
    }
    stage.finish(blocks.len())
}

/// The blocks of an input.
fn blocks_of(input: &[u8]) -> Result<&[[u8; 512]], BookFault>
    ensures { MatchResult result (λ b. (whole_blocks (length input.now) ≡ true) × (b.now ≡ first_chunks 512 (length input.now / 512) input.now)) (λ f. (whole_blocks (length input.now) ≡ false) × (f ≡ Length (length input.now))) }
{
    let bytes = input.len();
    if bytes == 0 || bytes % 512 != 0 {
        return Err(BookFault::Length { bytes });
    }
    Ok(input.as_chunks::<512>().0)
}
