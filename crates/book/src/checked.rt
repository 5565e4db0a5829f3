//! Blocks that are in order by themselves.

ghost use Rattle.std.specs.Prelude.{◌≡◌, ◌^◌, ◌<◌, ◌≤◌, true, false, Some, None, MatchResult, slice_index};
ghost use Rattle.book.specs.Blocks.{payload_length, payload, letter, block_refusal};
ghost use Rattle.book.specs.Books.{expected};
ghost use Rattle.book.specs.Faults.{block_told};
ghost use Rattle.book.specs.Letters.{letter_byte};
ghost use Rattle.book.specs.declared.fault.BookFault.TheVariants.{Unexpected};

use super::block::{check_block, number_of};
use super::fault::{BlockFault, BookFault};
use super::letter::Letter;
use super::stage::fits_place;
use notation::Symbol;

/// A block of an input that is in order by itself: its number there, counted from 0, what it is for,
/// and its bytes.
#[derive(Clone, Copy)]
pub(crate) struct CheckedBlock<'a> {
    pub(crate) number: usize,
    pub(crate) letter: Letter,
    pub(crate) bytes: &'a [u8; 512],
    ghost few: { number < 2 ^ 55 },
    ghost lettered: { letter_byte letter ≡ slice_index bytes.now 0 },
    ghost fits: { payload_length bytes.now ≤ 502 },
}

impl<'a> CheckedBlock<'a> {
    pub(crate) fn new(number: usize, bytes: &'a [u8; 512]) -> Result<CheckedBlock<'a>, BlockFault>
        requires { number < 2 ^ 55 }
        ensures { MatchResult result (λ c. (block_refusal number bytes.now ≡ None) × (c.number ≡ number) × (c.bytes.now ≡ bytes.now)) (λ f. block_refusal number bytes.now ≡ Some (block_told f)) }
    {
        let letter = check_block(number, bytes)?;
        Ok(CheckedBlock {
            number,
            letter,
            bytes,
        })
    }

    /// Refuses a block that has another number than its place asks for, or is of another kind.
    pub(crate) fn check_place<S: Symbol>(self) -> Result<(), BookFault>
        ensures { MatchResult result (λ _. expected S.kind self.entry.number self.entry.bytes.now ≡ true) (λ f. (expected S.kind self.entry.number self.entry.bytes.now ≡ false) × (f ≡ Unexpected self.entry.number)) }
    {
        let number = number_of(self.bytes[2], self.bytes[3]);
        if !fits_place::<S>(self.number, self.bytes[1], number) {
            return Err(BookFault::Unexpected { block: self.number });
        }
        Ok(())
    }

    pub(crate) fn payload_len(self) -> usize
        ensures { result ≡ payload_length self.entry.bytes.now }
    {
        usize::from(number_of(self.bytes[4], self.bytes[5]))
    }

    pub(crate) fn payload(self) -> &'a [u8]
        ensures { result.now ≡ payload self.entry.bytes.now }
    {
        let bytes = self.bytes;
        &bytes[6..6 + self.payload_len()]
    }
}
