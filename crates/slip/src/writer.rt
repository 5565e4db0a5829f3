//! Writing a question as a slip.

ghost use Rattle.std.specs.Prelude.{◌≡◌, [], ◌∷◌, ◌++◌};
ghost use Rattle.book.specs.Blocks.{two};
ghost use Rattle.slip.specs.Slips.{in_range, posed};
ghost use Rattle.slip.specs.SlipReading.{SlipWritten};

use super::fault::SlipWriteFault;
use book::{Letter, put_block};
use notation::Symbol;

/// Writes a question as a slip to the front of an output: plain numbers and symbols, of which the
/// fields are checked first.
// Stays: the rules ask for plain numbers here, which the call checks.
pub fn write_slip<S: Symbol>(
    limit: u32,
    mode: u32,
    price: u32,
    query: &[S],
    out: &mut [u8],
) -> Result<usize, SlipWriteFault>
    ensures { SlipWritten S.kind (posed S.byte limit mode price query.now) out.old out.new result }
{
    if !is_in_range(limit, mode, price, query.len()) {
        return Err(SlipWriteFault::OutOfRange);
    }
    let front = front(limit as u16, mode as u8, price as u8, query.len() as u8);
    let length = put_block::<S>(u8::from(Letter::Slip), 0, &front, query, out)?;
    Ok(length)
}

/// Whether the fields of a slip are in range: the limit, the mode, the price, and the number of notes.
fn is_in_range(limit: u32, mode: u32, price: u32, notes: usize) -> bool
    ensures { result ≡ in_range limit mode price notes }
{
    limit <= 4095 && mode <= 1 && (1 <= price && price <= 2) && (1 <= notes && notes <= 64)
}

/// The payload of a slip before its query.
fn front(limit: u16, mode: u8, price: u8, notes: u8) -> [u8; 5]
    ensures { result ≡ two limit ++ (mode ∷ price ∷ notes ∷ []) }
{
    let [high, low] = limit.to_be_bytes();
    [high, low, mode, price, notes]
}
