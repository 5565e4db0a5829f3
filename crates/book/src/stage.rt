//! The stages of reading a book, block by block.

ghost use Rattle.std.specs.Prelude.{◌≡◌, ◌+◌, ◌<◌, ◌≤◌, true, false, ◌&&◌, Some, None, MatchOption, MatchResult, ◌==◌};
ghost use Rattle.std.specs.List.{prefix_len};
ghost use Rattle.notation.specs.Kind.{readable};
ghost use Rattle.book.specs.Blocks.{letter};
ghost use Rattle.book.specs.Books.{turn_refusal, title_refusal, columns_refusal, after, opened, due, title_shape, in_shape, shape, expected, is_full};
ghost use Rattle.book.specs.Faults.{book_told};
ghost use Rattle.book.specs.declared.fault.BookFault.TheVariants.{Ends};
ghost use Rattle.book.specs.declared.stage.Stage.TheVariants.{Columns, Full};

use super::block::number_of;
use super::checked::CheckedBlock;
use super::fault::BookFault;
use super::letter::Letter;
use super::shape::{Progress, Shape};
use notation::Symbol;

/// What the reader waits for: a title, or more columns; or it is full.
#[derive(Clone, Copy, Debug, PartialEq, Eq)]
pub enum Stage {
    Title,
    Columns(Progress),
    Full(Shape),
}

impl Stage {
    /// The stage after one more block.
    pub(crate) fn next<S: Symbol>(self, block: CheckedBlock<'_>) -> Result<Stage, BookFault>
        ensures { MatchResult result (λ s. (turn_refusal S.kind self block.entry.number block.entry.bytes.now ≡ None) × (s ≡ after self block.entry.bytes.now)) (λ f. turn_refusal S.kind self block.entry.number block.entry.bytes.now ≡ Some (book_told f)) }
    {
        match (&self, &block.letter) {
            (Stage::Title, Letter::Title) => title::<S>(block),
            (Stage::Columns(progress), Letter::Columns) => progress.next::<S>(block),
            _ => Err(BookFault::OutOfTurn {
                block: block.number,
            }),
        }
    }

    /// The shape of a book that has ended at this stage.
    pub(crate) fn finish(self, blocks: usize) -> Result<Shape, BookFault>
        ensures { MatchResult result (λ s. self ≡ Full s) (λ f. (is_full self ≡ false) × (f ≡ Ends blocks)) }
    {
        match self {
            Stage::Full(shape) => Ok(shape),
            _ => Err(BookFault::Ends { blocks }),
        }
    }
}

impl Shape {
    /// The shape of so many tracks and columns, where a score can have it.
    fn new(tracks: u8, columns: u16) -> Option<Shape>
        ensures { MatchOption result (in_shape (shape tracks columns) ≡ false) (λ s. (in_shape s ≡ true) × (s ≡ shape tracks columns)) }
    {
        if tracks < 1 || tracks > 16 || columns > 4096 {
            return None;
        }
        Some(Shape { tracks, columns })
    }

    /// The stage where so many columns are read.
    fn opened(self, read: u16) -> Stage
        ensures { result ≡ opened self read }
    {
        if read < self.columns {
            Stage::Columns(Progress { shape: self, read })
        } else {
            Stage::Full(self)
        }
    }
}

fn title<S: Symbol>(block: CheckedBlock<'_>) -> Result<Stage, BookFault>
    requires { letter block.bytes.now ≡ 72 }
    ensures { MatchResult result (λ s. (title_refusal S.kind block.entry.number block.entry.bytes.now ≡ None) × (s ≡ opened (title_shape block.entry.bytes.now) 0)) (λ f. title_refusal S.kind block.entry.number block.entry.bytes.now ≡ Some (book_told f)) }
{
    block.check_place::<S>()?;
    let shape = Shape::new(block.bytes[6], number_of(block.bytes[7], block.bytes[8]));
    match shape {
        Some(lawful) if block.payload_len() == 3 => Ok(lawful.opened(0)),
        _ => Err(BookFault::MisshapenTitle {
            block: block.number,
        }),
    }
}

impl Progress {
    /// The columns due in the next block.
    fn due(self) -> u16
        ensures { result ≡ due self.shape self.read }
    {
        (502 / u16::from(self.shape.tracks)).min(self.shape.columns - self.read)
    }

    /// The stage after a block of columns.
    fn next<S: Symbol>(self, block: CheckedBlock<'_>) -> Result<Stage, BookFault>
        requires { letter block.bytes.now ≡ 67 }
        ensures { MatchResult result (λ s. (columns_refusal S.kind self.shape self.read block.entry.number block.entry.bytes.now ≡ None) × (s ≡ opened self.shape (self.read + due self.shape self.read))) (λ f. columns_refusal S.kind self.shape self.read block.entry.number block.entry.bytes.now ≡ Some (book_told f)) }
    {
        block.check_place::<S>()?;
        let due = self.due();
        if block.payload_len() != usize::from(due * u16::from(self.shape.tracks)) {
            return Err(BookFault::UndueColumns {
                block: block.number,
            });
        }
        let payload = block.payload();
        let front = readable_front::<S>(payload);
        if front < payload.len() {
            return Err(BookFault::Unreadable {
                byte: 512 * block.number + 6 + front,
            });
        }
        Ok(self.shape.opened(self.read + due))
    }
}

/// Whether a block's own kind and number are those that its place asks for.
// Stays: this public call takes any byte as a kind, and a `SymbolKind` would ask more of its callers.
pub fn fits_place<S: Symbol>(block: usize, of: u8, number: u16) -> bool
    ensures { result ≡ (number == block && of == S.kind.number) }
{
    usize::from(number) == block && of == S::number()
}

/// The number of bytes in front that the kind can read.
pub fn readable_front<S: Symbol>(bytes: &[u8]) -> usize
    ensures { result ≡ prefix_len (readable S.kind) bytes.now }
{
    bytes.iter().take_while(|b| S::read(**b).is_some()).count()
}
