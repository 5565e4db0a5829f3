//! Writing blocks.

ghost use Rattle.std.specs.Prelude.{◌≡◌, ◌+◌, ◌-◌, ◌<◌, ◌≤◌, ◌∷◌, ◌++◌, map, length, take, drop, replicate, MatchResult};
ghost use Rattle.book.specs.Blocks.{two, four, weighted, block_bytes};
ghost use Rattle.book.specs.Writing.{Written};

use super::block::check;
use super::fault::TooShort;
use notation::Symbol;

/// Writes letter, kind, number and payload length.
fn put_header(out: &mut [u8; 512], letter: u8, kind: u8, number: u16, len: u16)
    ensures { out.new ≡ letter ∷ kind ∷ two number ++ two len ++ drop 6 out.old }
{
    out[0] = letter;
    out[1] = kind;
    out[2..4].copy_from_slice(&number.to_be_bytes());
    out[4..6].copy_from_slice(&len.to_be_bytes());
}

/// Writes zeros from a place up to the check.
fn pad(out: &mut [u8; 512], from: usize)
    requires { from ≤ 508 }
    ensures { out.new ≡ take from out.old ++ replicate (508 - from) 0 ++ drop 508 out.old }
{
    out[from..508].fill(0);
}

/// Writes the check.
fn put_check(out: &mut [u8; 512])
    ensures { out.new ≡ take 508 out.old ++ four (weighted 1 (take 508 out.old)) }
{
    let sum = check(out);
    out[508..].copy_from_slice(&sum.to_be_bytes());
}

/// Makes a block of a payload that stands in its place already.
fn seal(out: &mut [u8; 512], letter: u8, kind: u8, number: u16, len: u16)
    requires { len ≤ 502 }
    ensures { out.new ≡ block_bytes letter kind number (take len (drop 6 out.old)) }
{
    put_header(out, letter, kind, number, len);
    pad(out, 6 + usize::from(len));
    put_check(out);
}

/// Writes symbols as the payload of a block, from a place on.
fn put_symbols<S: Symbol>(out: &mut [u8; 512], at: usize, symbols: &[S])
    requires { at + length symbols.now ≤ 512 }
    ensures { out.new ≡ take at out.old ++ (map S.byte symbols.now ++ drop (at + length symbols.now) out.old) }
{
    // Stays: tried `zip` with `iter_mut`, of whose writes the library tells no element.
    for (i, s) in symbols.iter().enumerate() {
        out[at + i] = s.write();
    }
}

/// Refuses an output that is too short.
pub fn has_room(out: &[u8], needed: usize) -> Result<(), TooShort>
    ensures { MatchResult result (λ _. needed ≤ length out.now) (λ f. (length out.now < needed) × (f.needed ≡ needed)) }
{
    if out.len() < needed {
        return Err(TooShort { needed });
    }
    Ok(())
}

/// Writes a block of the kind to the front of an output. Its payload is some bytes and then symbols, of
/// which it takes as many as it holds.
// Stays: this public call takes any byte as a letter, and a `Letter` would ask more of its callers.
pub fn put_block<S: Symbol>(
    letter: u8,
    number: u16,
    front: &[u8],
    symbols: &[S],
    out: &mut [u8],
) -> Result<usize, TooShort>
    ensures { Written (block_bytes letter S.kind.number number (take 502 (front.now ++ map S.byte symbols.now))) out.old out.new result }
{
    let Some(block) = out.first_chunk_mut::<512>() else {
        return Err(TooShort { needed: 512 });
    };
    fill_block::<S>(block, letter, number, front, symbols);
    Ok(512)
}

/// The same of a block's own bytes.
pub(crate) fn fill_block<S: Symbol>(
    out: &mut [u8; 512],
    letter: u8,
    number: u16,
    front: &[u8],
    symbols: &[S],
)
    ensures { out.new ≡ block_bytes letter S.kind.number number (take 502 (front.now ++ map S.byte symbols.now)) }
{
    let before = front.len().min(502);
    let after = symbols.len().min(502 - before);
    out[6..6 + before].copy_from_slice(&front[..before]);
    put_symbols::<S>(out, 6 + before, &symbols[..after]);
    seal(out, letter, S::number(), number, (before + after) as u16);
}
