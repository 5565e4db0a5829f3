//! The words of a report.
//!
//! Sums are worked out in 128 bits, so that none of them wraps, whatever the pieces.

ghost use Rattle.std.specs.Prelude.{◌≡◌, ◌+◌, ◌-◌, ◌^◌, ◌<◌, IfOk, string_bytes};
ghost use Rattle.splitting.specs.Score.{Score};
ghost use Rattle.splitting.specs.Splitting.{last, gap, silence};
ghost use Rattle.report.specs.Wording.{first_line, last_note, piece_line, found_text};

use splitting::Piece;
use std::alloc::{AllocError, Global};

// The last of so many, counted from the first on.
fn last_of(first: usize, len: usize) -> u128
    ensures { result ≡ first + len - 1 }
{
    (first as u128 + len as u128).saturating_sub(1)
}

// The line on one piece.
fn piece_line(heap: Global, piece: &Piece) -> Result<String, AllocError>
    ensures { IfOk result (λ t. string_bytes t ≡ piece_line piece.now) }
{
    let note = last_of(piece.first, piece.len);
    let end = last_of(piece.column, piece.len);
    format!(in heap;
        "notes {}-{note} track {} columns {}-{end}\n",
        piece.first, piece.track, piece.column
    )
}

// The gap of a hand-over.
fn gap_between(piece: &Piece, next: &Piece) -> u128
    ensures is { (score : Score) → result ≡ gap score (last piece.now) next.now.column }
    ensures small { result < 2 ^ 64 }
{
    let end = last_of(piece.column, piece.len);
    (next.column as u128).saturating_sub(end + 1)
}

// The silence of some pieces: the sum of their gaps.
fn silence_of(pieces: &[Piece]) -> u128
    ensures { (score : Score) → result ≡ silence score pieces.now }
{
    let mut sum: u128 = 0;
    let mut rest = pieces;
    while let [piece, next, ..] = rest {
        sum += gap_between(piece, next);
        rest = &rest[1..];
    }
    sum
}

// The first line on what is found.
#[tactic(auto, using(crate::proofs::Signs::signs))]
fn first_line(heap: Global, count: usize, silence: u128, shift: i32) -> Result<String, AllocError>
    ensures { IfOk result (λ t. string_bytes t ≡ first_line count silence shift) }
{
    format!(in heap; "pieces {count} silence {silence} shift {shift:+}\n")
}

// What is found.
pub(crate) fn found_text(heap: Global, shift: i32, pieces: &[Piece]) -> Result<String, AllocError>
    ensures { IfOk result (λ t. (score : Score) → string_bytes t ≡ found_text score shift pieces.now) }
{
    let mut text = first_line(heap, pieces.len(), silence_of(pieces), shift)?;
    for piece in pieces {
        let line = piece_line(heap, piece)?;
        text.push_str(line.as_str())?;
    }
    Ok(text)
}
