//! Reading a case, and writing what was read again.

use book::{Book, Grid};
use notation::{Pitch, Symbol};
use slip::{Slip, write_slip};
use std::alloc::{AllocError, Global};

/// What an output holds before it is written to.
const MARK: u8 = 170;

/// What is told of some bytes as a book of pitches. A book is written again, into an output with room
/// to spare and into one that is a byte too short.
pub(crate) fn book_case(heap: Global, bytes: &[u8]) -> Result<String, AllocError> {
    match Book::<Pitch>::read(bytes) {
        Err(fault) => fault.refusal().to_string(heap),
        Ok(book) => {
            let tracks = book.tracks();
            let columns = book.columns();
            let symbols = symbols_of(heap, &book)?;
            let same = book_again(heap, tracks, symbols.as_slice(), bytes)?;
            let short = book_short(heap, tracks, symbols.as_slice(), bytes.len())?;
            format!(in heap;
                "tracks {tracks} columns {columns}, written again: {same}, a byte too short: {short}"
            )
        }
    }
}

/// The symbols of a book, column after column.
fn symbols_of(heap: Global, book: &Book<Pitch>) -> Result<Vec<Pitch>, AllocError> {
    let mut symbols = Vec::new(heap);
    for column in 1..=book.columns() {
        add_column(&mut symbols, book, column)?;
    }
    Ok(symbols)
}

fn add_column(
    symbols: &mut Vec<Pitch>,
    book: &Book<Pitch>,
    column: usize,
) -> Result<(), AllocError> {
    for track in 1..=book.tracks() {
        if let Some(symbol) = book.symbol(column, track) {
            symbols.push(symbol)?;
        }
    }
    Ok(())
}

/// Whether the score is written as those bytes, and the output past them is as it was.
fn book_again(
    heap: Global,
    tracks: usize,
    symbols: &[Pitch],
    bytes: &[u8],
) -> Result<bool, AllocError> {
    let mut out = vec![in heap; MARK; bytes.len().saturating_add(3)]?;
    let grid = Grid::new(tracks, symbols);
    match grid.write(out.as_mut_slice()) {
        Ok(length) => Ok(is_written(out.as_slice(), bytes, length)),
        Err(_) => Ok(false),
    }
}

/// What is told of an output that is a byte too short, if that is as it was.
fn book_short(
    heap: Global,
    tracks: usize,
    symbols: &[Pitch],
    needed: usize,
) -> Result<String, AllocError> {
    let mut out = vec![in heap; MARK; needed.saturating_sub(1)]?;
    let grid = Grid::new(tracks, symbols);
    match grid.write(out.as_mut_slice()) {
        Err(fault) if is_marked(out.as_slice()) => fault.refusal().to_string(heap),
        _ => format!(in heap; "something else"),
    }
}

/// What is told of some bytes as a slip of pitches. It is written again as a book is.
pub(crate) fn slip_case(heap: Global, bytes: &[u8]) -> Result<String, AllocError> {
    match Slip::<Pitch>::read(bytes) {
        Err(fault) => fault.refusal().to_string(heap),
        Ok(slip) => {
            let limit = slip.limit();
            let mode = u32::from(u8::from(slip.mode()));
            let price = u32::from(u8::from(slip.price()));
            let notes = slip.notes();
            let query = slip.query(heap)?;
            let mut out = vec![in heap; MARK; 515]?;
            let same = match write_slip(
                u32::from(limit),
                mode,
                price,
                query.as_slice(),
                out.as_mut_slice(),
            ) {
                Ok(length) => is_written(out.as_slice(), bytes, length),
                Err(_) => false,
            };
            format!(in heap;
                "limit {limit} mode {mode} price {price} notes {notes}, written again: {same}"
            )
        }
    }
}

/// Whether an output begins with those bytes, so many, and is marked past them.
fn is_written(out: &[u8], bytes: &[u8], length: usize) -> bool {
    match out.split_at_checked(length) {
        Some((front, rest)) => front == bytes && is_marked(rest),
        None => false,
    }
}

fn is_marked(out: &[u8]) -> bool {
    out.iter().all(|b| *b == MARK)
}
