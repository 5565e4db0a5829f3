//! Lists of calls, and what is promised of them.

ghost use Rattle.std.specs.Prelude.{◌≡◌, map, IfOk, vec_len};
ghost use Rattle.finder.specs.Ledger.{command};
ghost use Rattle.finder.specs.Promise.{Performed};
ghost use Rattle.finder.specs.ScoreRules.{memory_refusal};
ghost use Rattle.finder.specs.Trying.{CallTried, prices_of};

use super::call::Call;
use super::outcome::{Outcome, Performance};
use super::questioning::transpose;
use super::score::Score;
use super::session::Session;
use book::Refusal;
use notation::Symbol;
use price::Price;
use std::alloc::{AllocError, Global};

impl<S: Symbol> Session<S> {
    /// Tries one call.
    fn perform_call<P: Price, R: Price>(
        &mut self,
        heap: Global,
        call: &Call<'_, S>,
    ) -> Result<Outcome<S, P, R>, AllocError>
        ensures { IfOk result (CallTried S.Symbol P.Price R.Price self.old (command S.byte call.now) self.new) }
    {
        match call {
            Call::Append(column) => Ok(Outcome::of_change(self.score.append(column))),
            Call::Correct {
                column,
                track,
                symbol,
            } => Ok(Outcome::of_change(self.score.correct(*column, *track, *symbol))),
            Call::Cut { columns } => Ok(Outcome::of_change(self.score.cut(*columns))),
            Call::Fill(book) => Ok(Outcome::of_change(self.score.fill(book))),
            Call::Set { limit, mode } => Ok(self.set(*limit, *mode)),
            Call::Begin { limit } => self.begin(*limit),
            Call::End => Ok(self.end()),
            Call::Size(query) => Ok(self.size(query)),
            Call::Transpose { query, by, room } => transpose(heap, query, *by, *room),
            Call::Ask { query, room, at } => self.ask(heap, query, *room, *at),
        }
    }
}

// The refusal of memory, if any.
fn memory_checked<S>(tracks: usize, length: usize) -> Option<Refusal>
    ensures { result ≡ memory_refusal tracks length }
{
    let checked = Score::<S>::check(tracks, length).err();
    checked.map(|fault| fault.refusal())
}

/// Makes a score of so many tracks over memory, and terms, and tries every call of a list in turn.
/// A call that is refused changes nothing, and so does one that is none: a setting under an open
/// trial, and an end where none is open. Trials that are open at the end of the list end with it.
pub fn perform<S: Symbol, P: Price, R: Price>(
    heap: Global,
    tracks: usize,
    memory: Vec<S>,
    calls: &[Call<'_, S>],
) -> Result<Performance<S, P, R>, AllocError>
    ensures { IfOk result (Performed S.kind S.byte (prices_of P.pricing P.meaning R.pricing R.meaning) tracks (vec_len memory) (map (command S.byte) calls.now)) }
{
    let checked = memory_checked::<S>(tracks, memory.len());
    let mut session = Session::new(heap, tracks, memory);
    let mut outcomes = Vec::new(heap);
    for call in calls {
        outcomes.push(session.perform_call(heap, call)?)?;
    }
    Ok(Performance {
        memory: checked,
        outcomes,
    })
}
