//! Questions about the symbols of a score: what workspace they ask for, and their answers.

ghost use Rattle.std.specs.Prelude.{◌≡◌, ℕ, map, length, Some, None, MatchResult};
ghost use Rattle.book.specs.declared.grid.Grid.{Grid as Held};
ghost use Rattle.search.specs.Faults.{question_told};
ghost use Rattle.search.specs.Queries.{list_refusal};
ghost use Rattle.search.specs.Questions.{grid_question, question_refusal, Sized, Sought};

use super::answering::answer;
use super::fault::{ListFault, QueryFault, QuestionFault};
use super::query::{check_list, check_query};
use super::question::Asking;
use super::sheets::{Lengths, Sheets};
use super::tally::Tally;
use book::Grid;
use notation::{Mode, Symbol};
use price::{Entry, Price};
use splitting::{Answer, Piece};

/// How long each of the three sheets must be that are lent to a question.
pub fn workspace_size<S: Symbol>(
    grid: &Grid<'_, S>,
    mode: Mode,
    query: &[S],
) -> Result<usize, QueryFault>
    ensures { (limit : ℕ) → Sized (grid_question S.kind S.byte grid.now limit mode query.now) result }
{
    let query = check_query(query)?;
    Ok(Tally::new(grid).workspace(mode, &query))
}

// Checks the length of each sheet against the workspace of a question whose query and list are
// checked, by a tally of the score. No rule speaks of the limit.
fn check_sheets<S: Symbol>(
    tally: &Tally<S>,
    asking: &Asking<S>,
    lengths: Lengths,
) -> Result<(), QuestionFault>
    ensures { (held : Held S) → tally.now.cells.now ≡ held.symbols.now → (list : ℕ) → list_refusal (map S.byte asking.now.query.notes.now) list ≡ None → MatchResult result (λ _. question_refusal (grid_question S.kind S.byte held 0 asking.now.mode asking.now.query.notes.now) list lengths.prices lengths.window lengths.steps ≡ None) (λ f. question_refusal (grid_question S.kind S.byte held 0 asking.now.mode asking.now.query.notes.now) list lengths.prices lengths.window lengths.steps ≡ Some (question_told f)) }
{
    let size = tally.workspace(asking.mode, &asking.query);
    if !lengths.hold(size) {
        return Err(QuestionFault::ShortSheet { size });
    }
    Ok(())
}

/// Where a query can be found at the least price, its pieces in the front of the list. Prices,
/// window and steps are sheets to work on. A refusal leaves them and the list as they were.
// Stays: eight parameters, since the rules name what is handed over, one by one.
pub fn find<S: Symbol, P: Price>(
    grid: &Grid<'_, S>,
    limit: u32,
    mode: Mode,
    query: &[S],
    list: &mut [Piece],
    prices: &mut [Option<P>],
    window: &mut [Entry<P>],
    steps: &mut [u32],
) -> Result<Answer<P>, QuestionFault>
    ensures { Sought P.pricing P.meaning (grid_question S.kind S.byte grid.now limit mode query.now) (question_refusal (grid_question S.kind S.byte grid.now limit mode query.now) (length list.old) (length prices.old) (length window.old) (length steps.old)) list.old list.new ((prices.new ≡ prices.old) × (window.new ≡ window.old) × (steps.new ≡ steps.old)) result }
{
    let query = check_list(query, list.len())?;
    let asking = Asking { mode, query, limit };
    let tally = Tally::new(grid);
    let lengths = Lengths {
        prices: prices.len(),
        steps: steps.len(),
        window: window.len(),
    };
    check_sheets(&tally, &asking, lengths)?;
    let mut sheets = Sheets {
        prices,
        steps,
        window,
    };
    Ok(answer(grid, tally, &asking, list, &mut sheets))
}
