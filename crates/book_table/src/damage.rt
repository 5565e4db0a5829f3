//! Damaging a good book, one byte at a time.

use book::Book;
use notation::{Pitch, Symbol};
use std::alloc::{AllocError, Global};

/// How a byte is damaged.
const FLIPS: [u8; 3] = [1, 128, 255];

/// How many damages were tried on a book, and how many were refused by 2 with the block damaged.
#[derive(Clone, Copy, Default)]
pub(crate) struct Damage {
    pub(crate) tried: u32,
    pub(crate) refused: u32,
}

/// Damages each byte of a book in turn.
pub(crate) fn damaged(heap: Global, book: &[u8]) -> Result<Damage, AllocError> {
    let mut copy = book.to_vec(heap)?;
    let mut damage = Damage::default();
    for at in 0..book.len() {
        let refused = damaged_at(copy.as_mut_slice(), at);
        damage.refused = damage.refused.saturating_add(refused);
        damage.tried = damage.tried.saturating_add(3);
    }
    Ok(damage)
}

/// How many of the damages at a place are refused by 2 with its block.
fn damaged_at(book: &mut [u8], at: usize) -> u32 {
    let mut refused: u32 = 0;
    for flip in FLIPS {
        refused = refused.saturating_add(u32::from(is_refused(book, at, flip)));
    }
    refused
}

/// Whether a book with one byte flipped is refused by 2 with its block. The byte is put back.
fn is_refused(book: &mut [u8], at: usize, flip: u8) -> bool {
    if at >= book.len() {
        return false;
    }
    let good = book[at];
    book[at] = good ^ flip;
    let refused = match Book::<Pitch>::read(book) {
        Ok(_) => false,
        Err(fault) => {
            let refusal = fault.refusal();
            refusal.number == 2 && refusal.place == (at / 512) as u64
        }
    };
    book[at] = good;
    refused
}
