//! Blocks of 512 bytes, the parts of books and slips.

ghost use Rattle.std.specs.Prelude.{◌≡◌, ◌+◌, ◌*◌, ◌<◌, ◌≤◌, true, false, length, take, Some, None, MatchOption, MatchResult, slice_index};
ghost use Rattle.notation.specs.Known.{known};
ghost use Rattle.book.specs.Blocks.{weighted, blank, letter, known_letter, payload_length, padded, sound, stored_check, block_refusal};
ghost use Rattle.book.specs.Letters.{letter_byte};
ghost use Rattle.book.specs.Faults.{block_told};

use super::fault::BlockFault;
use super::letter::Letter;
use notation::SymbolKind;

/// Checks a block by itself, whatever it is for, and tells its letter.
pub fn check_block(block: usize, bytes: &[u8; 512]) -> Result<Letter, BlockFault>
    ensures { MatchResult result (λ l. (block_refusal block bytes.now ≡ None) × (letter_byte l ≡ letter bytes.now) × (payload_length bytes.now ≤ 502)) (λ f. block_refusal block bytes.now ≡ Some (block_told f)) }
{
    if !is_sound(bytes) {
        return Err(BlockFault::Check { block });
    }
    let (Ok(letter), Ok(_)) = (Letter::try_from(bytes[0]), SymbolKind::try_from(bytes[1])) else {
        return Err(BlockFault::Unknown { block });
    };
    if !is_padded(bytes) {
        return Err(BlockFault::Padding { block });
    }
    Ok(letter)
}

/// Whether the payload fits and zeros follow it up to the check.
fn is_padded(bytes: &[u8; 512]) -> bool
    ensures { result ≡ padded bytes.now }
{
    let len = usize::from(number_of(bytes[4], bytes[5]));
    len <= 502 && is_blank(&bytes[6 + len..508])
}

/// The sum of each of the first 508 bytes times its position counted from 1.
pub(crate) fn check(bytes: &[u8; 512]) -> u32
    ensures { result ≡ weighted 1 (take 508 bytes.now) }
{
    let mut sum: u32 = 0;
    // Stays: the rules name an indexed loop over the bytes of a block here.
    for i in 0..508usize {
        sum += weight(i, bytes[i]);
    }
    sum
}

/// A byte times its position counted from 1.
fn weight(i: usize, b: u8) -> u32
    requires { i < 508 }
    ensures { result ≡ (i + 1) * b }
{
    (i as u32 + 1) * u32::from(b)
}

/// Whether the check that is stored is the one worked out.
fn is_sound(bytes: &[u8; 512]) -> bool
    ensures { result ≡ sound bytes.now }
{
    stored_check(bytes) == check(bytes)
}

fn stored_check(bytes: &[u8; 512]) -> u32
    ensures { result ≡ stored_check bytes.now }
{
    u32::from_be_bytes([bytes[508], bytes[509], bytes[510], bytes[511]])
}

/// The number that two bytes write, the high byte first.
pub fn number_of(high: u8, low: u8) -> u16
    ensures { result ≡ high * 256 + low }
{
    u16::from_be_bytes([high, low])
}

fn is_blank(bytes: &[u8]) -> bool
    ensures { result ≡ blank bytes.now }
{
    bytes.iter().all(|b| *b == 0)
}
