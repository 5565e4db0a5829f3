//! Answering a slip about a book, by lists of calls on a score.

ghost use Rattle.std.specs.Prelude.{◌≡◌, map, IfOk, string_bytes};
ghost use Rattle.book.specs.Describing.{refused_line};
ghost use Rattle.slip.specs.SlipReading.{Asks};
ghost use Rattle.slip.specs.Slips.{Inquiry};
ghost use Rattle.finder.specs.ScoreRules.{fill_refusal};
ghost use Rattle.report.specs.Outcomes.{first_of};
ghost use Rattle.report.specs.Reports.{Poses, InquiryTold, PartsTold};
ghost use Rattle.report.specs.Tracks.{room_for, lawful_tracks};

use super::memory::Memory;
use super::parts::kind_at;
use super::telling::{refusal_of, text_by};
use book::{Refusal, refused_line};
use finder::{Call, Room, perform};
use notation::{Mode, Symbol};
use price::{Changes, ChangesThenSilence};
use slip::{PriceKind, Slip};
use std::alloc::{AllocError, Global};

const ROOM: Room = Room {
    list: 64,
    prices: 4096,
    window: 4096,
    steps: 4096,
};

// The text where the slip is refused: a refusal of the book comes before it.
fn turned_away<S: Symbol>(
    heap: Global,
    memory: Memory<S>,
    book: &[u8],
    refusal: Refusal,
) -> Result<String, AllocError>
    ensures { IfOk result (λ t. string_bytes t ≡ refused_line (first_of (fill_refusal S.kind memory.tracks (room_for memory.tracks) book.now) refusal)) }
{
    let Memory { tracks, symbols } = memory;
    let mut calls = Vec::new(heap);
    calls.push(Call::Fill(book))?;
    let performed = perform::<S, Changes, ChangesThenSilence>(heap, tracks, symbols, &calls)?;
    let filling = refusal_of(&performed.outcomes[0]);
    refused_line(heap, filling.unwrap_or(refusal))
}

// What a slip asks, its query as symbols.
#[derive(Clone, Copy)]
struct Asked<'a, S> {
    limit: u32,
    mode: Mode,
    price: PriceKind,
    query: &'a [S],
}

// The text on what is asked about a book.
fn told_of<'a, S: Symbol>(
    heap: Global,
    memory: Memory<S>,
    book: &'a [u8],
    asked: Asked<'a, S>,
) -> Result<String, AllocError>
    ensures { IfOk result (λ t. (q : Inquiry) → Poses asked.entry.limit asked.entry.mode asked.entry.price (map S.byte asked.entry.query.now) q → InquiryTold S.kind memory.tracks book.now q (string_bytes t)) }
{
    let Memory { tracks, symbols } = memory;
    let Asked {
        limit,
        mode,
        price,
        query,
    } = asked;
    let at = kind_at(price);
    let mut calls = Vec::new(heap);
    calls.push(Call::Fill(book))?;
    calls.push(Call::Set { limit, mode })?;
    calls.push(Call::Ask {
        query,
        room: ROOM,
        at,
    })?;
    let performed = perform::<S, Changes, ChangesThenSilence>(heap, tracks, symbols, &calls)?;
    let filling = refusal_of(&performed.outcomes[0]);
    text_by(heap, filling, &performed.outcomes[2])
}

// The text on what a slip asks about a book.
fn answered<S: Symbol>(
    heap: Global,
    memory: Memory<S>,
    book: &[u8],
    slip: &Slip<'_, S>,
) -> Result<String, AllocError>
    ensures { IfOk result (λ t. (q : Inquiry) → Asks S.kind slip.now q → InquiryTold S.kind memory.tracks book.now q (string_bytes t)) }
{
    let query = slip.query(heap)?;
    let asked = Asked {
        limit: u32::from(slip.limit()),
        mode: slip.mode(),
        price: slip.price(),
        query: query.as_slice(),
    };
    told_of(heap, memory, book, asked)
}

// The text on a book that names so many tracks and a slip, both of the kind `S`.
pub(crate) fn text_as<S: Symbol>(
    heap: Global,
    named: u8,
    book: &[u8],
    slip: &[u8],
) -> Result<String, AllocError>
    ensures { IfOk result (λ t. PartsTold S.kind (lawful_tracks named) book.now slip.now (string_bytes t)) }
{
    let memory = Memory::<S>::new(heap, named)?;
    match Slip::<S>::read(slip) {
        Ok(asked) => answered(heap, memory, book, &asked),
        Err(fault) => turned_away(heap, memory, book, fault.refusal()),
    }
}
