//! Telling what a book is, as text.

ghost use Rattle.std.specs.Prelude.{◌≡◌, IfOk, string_bytes};
ghost use Rattle.notation.specs.Kinds.{kind_of};
ghost use Rattle.book.specs.Describing.{description, description_as, named_kind, refused_line, Described};
ghost use Rattle.book.specs.Writing.{Written};

use super::fault::{DescribeFault, TooShort};
use super::refusal::Refusal;
use super::sealing::has_room;
use super::view::Book;
use notation::{Pitch, PitchClass, Stroke, Symbol, SymbolKind};
use std::alloc::{AllocError, Global};

/// Writes a line on some bytes to the front of an output: kind, tracks and columns of the book that
/// they are, or why they are none.
pub fn describe(heap: Global, input: &[u8], out: &mut [u8]) -> Result<usize, DescribeFault>
    ensures { Described (description input.now) out.old out.new result }
{
    let text = text_of(heap, input)?;
    let length = put_text(text.as_bytes(), out)?;
    Ok(length)
}

fn text_of(heap: Global, input: &[u8]) -> Result<String, AllocError>
    ensures { IfOk result (λ t. string_bytes t ≡ description input.now) }
{
    match named_kind(input) {
        SymbolKind::Pitch => text_as::<Pitch>(heap, input),
        SymbolKind::PitchClass => text_as::<PitchClass>(heap, input),
        SymbolKind::Stroke => text_as::<Stroke>(heap, input),
    }
}

/// The kind that some bytes name as a book, and pitches where they name none.
pub fn named_kind(input: &[u8]) -> SymbolKind
    ensures { kind_of result ≡ named_kind input.now }
{
    match input.get(1) {
        Some(byte) => SymbolKind::try_from(*byte).unwrap_or(SymbolKind::Pitch),
        None => SymbolKind::Pitch,
    }
}

fn text_as<S: Symbol>(heap: Global, input: &[u8]) -> Result<String, AllocError>
    ensures { IfOk result (λ t. string_bytes t ≡ description_as S.kind input.now) }
{
    match Book::<S>::read(input) {
        Ok(book) => {
            let kind = S::number();
            let tracks = book.tracks();
            let columns = book.columns();
            format!(in heap; "kind {kind} tracks {tracks} columns {columns}\n")
        }
        Err(fault) => refused_line(heap, fault.refusal()),
    }
}

/// The line on a refusal: its number and its place.
pub fn refused_line(heap: Global, refusal: Refusal) -> Result<String, AllocError>
    ensures { IfOk result (λ t. string_bytes t ≡ refused_line refusal) }
{
    format!(in heap; "{refusal}\n")
}

/// Copies a text to the front of an output.
pub fn put_text(text: &[u8], out: &mut [u8]) -> Result<usize, TooShort>
    ensures { Written text.now out.old out.new result }
{
    let needed = text.len();
    has_room(out, needed)?;
    out[0..needed].copy_from_slice(text);
    Ok(needed)
}
