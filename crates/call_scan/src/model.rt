//! What a list of calls has to come to, kept as plainly as can be.

use super::step::{Kind, Step};
use finder::{Limit, Score, Terms};
use notation::{Mode, Pitch, Symbol};
use std::alloc::{AllocError, Global};

pub(super) const TRACKS: usize = 2;

pub(super) const CAPACITY: usize = 4;

/// What is due of a call.
#[derive(Clone, Copy)]
pub(super) enum Due {
    NoCall,
    Refused(u8, usize),
    Done,
    Answer,
}

/// The symbols held, column after column, the limit in force, those laid by, and the mode.
#[derive(Drop)]
pub(super) struct Model {
    symbols: Vec<Pitch>,
    limit: u32,
    laid_by: Vec<u32>,
    mode: Mode,
}

// What is due of a query: refused for its length or for its first rest.
fn query_due(query: &[Pitch]) -> Due {
    if query.len() == 0 || query.len() > 64 {
        return Due::Refused(17, query.len());
    }
    match query.iter().position(|symbol| *symbol == Pitch::rest()) {
        Some(before) => Due::Refused(18, before.saturating_add(1)),
        None => Due::Answer,
    }
}

fn limit_due(limit: u32) -> Due {
    if limit > 4_095 {
        Due::Refused(16, limit as usize)
    } else {
        Due::Done
    }
}

impl Model {
    pub(super) fn new(heap: Global) -> Model {
        Model {
            symbols: Vec::new(heap),
            limit: 0,
            laid_by: Vec::new(heap),
            mode: Mode::Untransposed,
        }
    }

    fn columns(&self) -> usize {
        self.symbols.len() / TRACKS
    }

    fn correct_due(&self, step: Step) -> Due {
        if step.column == 0 || step.column > self.columns() {
            return Due::Refused(15, step.column);
        }
        if step.track == 0 || step.track > TRACKS {
            return Due::Refused(15, step.track);
        }
        Due::Done
    }

    fn append_due(&self, tracks: usize) -> Due {
        if tracks != TRACKS {
            return Due::Refused(13, tracks);
        }
        if self.columns() >= CAPACITY {
            return Due::Refused(14, CAPACITY);
        }
        Due::Done
    }

    // What is due of a call that takes some symbols.
    pub(super) fn due(&self, step: Step, symbols: &[Pitch]) -> Due {
        let open = self.laid_by.len() > 0;
        match step.kind {
            Kind::Append => self.append_due(symbols.len()),
            Kind::Correct => self.correct_due(step),
            Kind::Cut => {
                if step.column > self.columns() {
                    Due::Refused(22, step.column)
                } else {
                    Due::Done
                }
            }
            Kind::Set => {
                if open {
                    Due::NoCall
                } else {
                    limit_due(step.limit)
                }
            }
            Kind::Begin => limit_due(step.limit),
            Kind::End => { if open { Due::Done } else { Due::NoCall } }
            _ => query_due(symbols),
        }
    }

    // Puts another symbol into a column on a track.
    fn correct(&mut self, step: Step, symbol: Pitch) {
        let before = step.column.saturating_sub(1).saturating_mul(TRACKS);
        let at = before.saturating_add(step.track.saturating_sub(1));
        if at < self.symbols.len() {
            self.symbols[at] = symbol;
        }
    }

    // Does what a granted call does.
    pub(super) fn take(
        &mut self,
        step: Step,
        symbols: &[Pitch],
        symbol: Pitch,
    ) -> Result<(), AllocError> {
        match step.kind {
            Kind::Append => {
                self.symbols.extend_from_slice(symbols)?;
            }
            Kind::Correct => self.correct(step, symbol),
            Kind::Cut => self.symbols.truncate(step.column.saturating_mul(TRACKS)),
            Kind::Set => {
                self.limit = step.limit;
                self.mode = step.mode;
            }
            Kind::Begin => {
                self.laid_by.push(self.limit)?;
                self.limit = step.limit;
            }
            Kind::End => self.limit = self.laid_by.pop().unwrap_or(0),
            _ => {}
        }
        Ok(())
    }

    // The terms in force.
    pub(super) fn terms(&self) -> Option<Terms> {
        let mut terms = Terms::new();
        terms.set(Limit::new(self.limit).ok()?, self.mode);
        Some(terms)
    }

    // A fresh score of the columns held.
    pub(super) fn score(&self, heap: Global) -> Result<Option<Score<Pitch>>, AllocError> {
        let mut score = Score::new(TRACKS, vec![in heap; Pitch::rest(); TRACKS * CAPACITY]?);
        for column in self.symbols.chunks(TRACKS) {
            if score.append(column).is_err() {
                return Ok(None);
            }
        }
        Ok(Some(score))
    }
}
