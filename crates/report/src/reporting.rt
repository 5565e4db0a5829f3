//! The report on an input.

ghost use Rattle.std.specs.Prelude.{IfOk, string_bytes};
ghost use Rattle.report.specs.Reports.{Acceptable, Reported};

use super::answering::text_as;
use super::fault::ReportFault;
use super::parts::{is_whole, length_refusal};
use book::{named_kind, put_text, refused_line};
use notation::{Pitch, PitchClass, Stroke, SymbolKind};
use std::alloc::{AllocError, Global};

/// Writes the report on an input, a book and then a slip in its last block, to the front of an
/// output.
pub fn report(heap: Global, input: &[u8], out: &mut [u8]) -> Result<usize, ReportFault>
    ensures { Reported input.now out.old out.new result }
{
    let text = text_of(heap, input)?;
    let length = put_text(text.as_bytes(), out)?;
    Ok(length)
}

fn text_of(heap: Global, input: &[u8]) -> Result<String, AllocError>
    ensures { IfOk result (λ t. Acceptable input.now (string_bytes t)) }
{
    if !is_whole(input.len()) {
        return refused_line(heap, length_refusal(input.len()));
    }
    let (book, slip) = input.split_at(input.len() - 512);
    match named_kind(input) {
        SymbolKind::Pitch => text_as::<Pitch>(heap, input[6], book, slip),
        SymbolKind::PitchClass => text_as::<PitchClass>(heap, input[6], book, slip),
        SymbolKind::Stroke => text_as::<Stroke>(heap, input[6], book, slip),
    }
}
