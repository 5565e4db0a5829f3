//! The calls that a list can hold.

use notation::Mode;

/// At which of two price kinds a question is asked.
#[derive(Clone, Copy, Debug, PartialEq, Eq)]
pub enum PriceKind {
    First,
    Second,
}

/// The lengths of what a question is lent: the list for its pieces, and three sheets to work on.
#[derive(Clone, Copy, Debug, PartialEq, Eq)]
pub struct Room {
    pub list: usize,
    pub prices: usize,
    pub window: usize,
    pub steps: usize,
}

/// One call on a score and its terms. Limits are plain numbers, and may be refused.
#[derive(Debug, PartialEq, Eq, Drop)]
pub enum Call<'a, S> {
    /// Puts a column last.
    Append(&'a [S]),
    /// Puts another symbol into a column on a track, both counted from 1.
    Correct {
        column: usize,
        track: usize,
        symbol: S,
    },
    /// Keeps so many first columns.
    Cut {
        columns: usize,
    },
    /// Puts a book's columns in the place of all.
    Fill(&'a [u8]),
    /// Puts another limit and another mode in the place of both; no call while a trial is open.
    Set {
        limit: u32,
        mode: Mode,
    },
    /// Begins a trial of another limit.
    Begin {
        limit: u32,
    },
    /// Ends the trial begun last; no call where none is open.
    End,
    /// How long each sheet must be for a query.
    Size(&'a [S]),
    /// Transposes a query into a list of so many symbols.
    Transpose {
        query: &'a [S],
        by: i32,
        room: usize,
    },
    /// Where a query can be found at the least price.
    Ask {
        query: &'a [S],
        room: Room,
        at: PriceKind,
    },
}
