//! The parts of an input: a book, and a slip in its last block.

ghost use Rattle.std.specs.Prelude.{◌≡◌, min};
ghost use Rattle.book.specs.Refusals.{refusal};
ghost use Rattle.book.specs.declared.refusal.Layer.TheVariants.{File};
ghost use Rattle.report.specs.Outcomes.{kind_at};
ghost use Rattle.report.specs.Reports.{whole_blocks};

use book::{Layer, Refusal};

// Whether so many bytes are 2 to 64 whole blocks.
pub(crate) fn is_whole(bytes: usize) -> bool
    ensures { result ≡ whole_blocks bytes }
{
    bytes >= 1024 && bytes <= 32768 && bytes % 512 == 0
}

// The refusal of an input that is not.
pub(crate) fn length_refusal(bytes: usize) -> Refusal
    ensures { result ≡ refusal 1 (min bytes 32769) File }
{
    Refusal {
        number: 1,
        place: bytes.min(32769) as u64,
        layer: Layer::File,
    }
}

// The price kind of a slip, as the first or the second of two.
// Stays: `From` would make one of the two crates know the other, since neither type is of this crate.
pub(crate) fn kind_at(price: slip::PriceKind) -> finder::PriceKind
    ensures { result ≡ kind_at price }
{
    match price {
        slip::PriceKind::Changes => finder::PriceKind::First,
        slip::PriceKind::ChangesThenSilence => finder::PriceKind::Second,
    }
}
