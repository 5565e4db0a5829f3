//! Calls as plain values, made at random.

use finder::{Call, PriceKind, Room};
use notation::{Mode, Symbol};
use prng::Random;

#[derive(Clone, Copy)]
pub(super) enum Kind {
    Append,
    Correct,
    Cut,
    Set,
    Begin,
    End,
    Size,
    First,
    Second,
}

/// A call: its kind, a part of a pool of symbols, and the numbers that some kinds take.
#[derive(Clone, Copy)]
pub(super) struct Step {
    pub(super) kind: Kind,
    from: usize,
    len: usize,
    pub(super) column: usize,
    pub(super) track: usize,
    pub(super) limit: u32,
    pub(super) mode: Mode,
}

pub(super) const ROOM: usize = 64;

fn any_kind(random: &mut Random) -> Kind {
    match random.below(12) {
        0 => Kind::Correct,
        1 => Kind::Cut,
        2 => Kind::Set,
        3 => Kind::Begin,
        4 => Kind::End,
        5 => Kind::Size,
        6 => Kind::First,
        7 => Kind::Second,
        _ => Kind::Append,
    }
}

fn any_limit(random: &mut Random) -> u32 {
    match random.below(5) {
        0 => 0,
        1 => 1,
        2 => 2,
        3 => 4_095,
        _ => 4_096,
    }
}

// A call over parts of a pool of so many symbols.
pub(super) fn any_step(random: &mut Random, pool: u32) -> Step {
    let kind = any_kind(random);
    let len = match kind {
        Kind::Append => random.below(8).max(2).min(3),
        _ => random.below(4),
    };
    Step {
        kind,
        from: random.below(pool.saturating_sub(4)) as usize,
        len: if random.below(4) == 0 {
            len as usize
        } else {
            2
        },
        column: random.below(6) as usize,
        track: random.below(4) as usize,
        limit: any_limit(random),
        mode: if random.below(2) == 0 {
            Mode::Untransposed
        } else {
            Mode::AnyTransposition
        },
    }
}

// The symbols that a call takes.
pub(super) fn part<'a, S: Symbol>(pool: &'a [S], step: Step) -> &'a [S] {
    pool.get(step.from..step.from.saturating_add(step.len))
        .unwrap_or(pool)
}

// The symbol that a correction takes.
pub(super) fn symbol_of<S: Symbol>(pool: &[S], step: Step) -> S {
    pool.get(step.from).copied().unwrap_or(S::rest())
}

fn ask<'a, S: Symbol>(query: &'a [S], at: PriceKind) -> Call<'a, S> {
    let room = Room {
        list: ROOM,
        prices: ROOM,
        window: ROOM,
        steps: ROOM,
    };
    Call::Ask { query, room, at }
}

pub(super) fn call_of<'a, S: Symbol>(pool: &'a [S], step: Step, symbol: S) -> Call<'a, S> {
    let column = step.column;
    let limit = step.limit;
    match step.kind {
        Kind::Append => Call::Append(part(pool, step)),
        Kind::Correct => Call::Correct {
            column,
            track: step.track,
            symbol,
        },
        Kind::Cut => Call::Cut { columns: column },
        Kind::Set => Call::Set {
            limit,
            mode: step.mode,
        },
        Kind::Begin => Call::Begin { limit },
        Kind::End => Call::End,
        Kind::Size => Call::Size(part(pool, step)),
        Kind::First => ask(part(pool, step), PriceKind::First),
        Kind::Second => ask(part(pool, step), PriceKind::Second),
    }
}
