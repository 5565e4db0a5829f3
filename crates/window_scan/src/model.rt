//! What the window has to answer, found by looking at every entry put in.

use price::{Entry, Passed, Price};
use std::alloc::{AllocError, Global};

/// All entries put in, the first one first, the position reached, the limit, and the room.
#[derive(Drop)]
pub(super) struct Model<P: Drop> {
    puts: Vec<Entry<P>>,
    position: u32,
    limit: u32,
    room: u32,
}

fn gap(from: u32, position: u32) -> u32 {
    position.saturating_sub(from).saturating_sub(1)
}

fn cost<P: Price>(from: u32, entry: Entry<P>) -> P {
    entry.price.charged(gap(from, entry.position))
}

// The cheaper of two, the later one of equals.
fn cheaper<P: Price>(from: u32, earlier: Entry<P>, later: Entry<P>) -> Entry<P> {
    if cost(from, later).not_above(cost(from, earlier)) {
        later
    } else {
        earlier
    }
}

// The cheapest entry within the limit.
fn scan<P: Price>(puts: &[Entry<P>], from: u32, limit: u32) -> Option<Entry<P>> {
    puts.iter()
        .copied()
        .filter(|e| e.position > from && gap(from, e.position) <= limit)
        .reduce(|earlier, later| cheaper(from, earlier, later))
}

impl<P: Price> Model<P> {
    pub(super) fn new(heap: Global, limit: u32, room: u32) -> Model<P> {
        Model {
            puts: Vec::new(heap),
            position: u32::MAX,
            limit,
            room,
        }
    }

    // Whether `entry` may be put in from `from`: no entry lies nearer.
    pub(super) fn may_put(&self, from: u32, entry: Entry<P>) -> bool {
        from <= self.position
            && from < entry.position
            && self.puts.iter().all(|e| e.position >= entry.position)
    }

    // Whether as many entries were put in as there is room for, so that one may be returned.
    pub(super) fn is_full(&self) -> bool {
        self.puts.len() >= self.room as usize
    }

    pub(super) fn put(&mut self, from: u32, entry: Entry<P>) -> Result<(), AllocError> {
        self.puts.push(entry)?;
        self.position = from;
        Ok(())
    }

    pub(super) fn least(&mut self, from: u32) -> Result<Option<Entry<P>>, Passed> {
        if from > self.position {
            return Err(Passed);
        }
        self.position = from;
        Ok(scan(&self.puts, from, self.limit))
    }
}
