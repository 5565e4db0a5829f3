//! Questions to a score: what workspace they ask for, and their answers.

ghost use Rattle.std.specs.Prelude.{◌≡◌, length};
ghost use Rattle.search.specs.Questions.{question_refusal, Sized, Sought};
ghost use Rattle.finder.specs.Questions.{question};

use super::score::Score;
use super::terms::Terms;
use notation::Symbol;
use price::{Entry, Price};
use search::{QueryFault, QuestionFault, find, workspace_size};
use splitting::{Answer, Piece};

impl<S: Symbol> Score<S> {
    /// How long each of the three sheets must be that are lent to a question.
    pub fn workspace_size(&self, terms: &Terms, query: &[S]) -> Result<usize, QueryFault>
        ensures { Sized (question S.kind S.byte self.now terms.now query.now) result }
    {
        workspace_size(&self.grid(), terms.mode, query)
    }

    /// Where a query can be found at the least price, its pieces in the front of the list. Prices,
    /// window and steps are sheets to work on. A refusal leaves them and the list as they were.
    // Stays: the list and the sheets are lent one by one, as the rules name them.
    pub fn find<P: Price>(
        &self,
        terms: &Terms,
        query: &[S],
        list: &mut [Piece],
        prices: &mut [Option<P>],
        window: &mut [Entry<P>],
        steps: &mut [u32],
    ) -> Result<Answer<P>, QuestionFault>
        ensures { Sought P.pricing P.meaning (question S.kind S.byte self.now terms.now query.now) (question_refusal (question S.kind S.byte self.now terms.now query.now) (length list.old) (length prices.old) (length window.old) (length steps.old)) list.old list.new ((prices.new ≡ prices.old) × (window.new ≡ window.old) × (steps.new ≡ steps.old)) result }
    {
        find(
            &self.grid(),
            terms.limit.value(),
            terms.mode,
            query,
            list,
            prices,
            window,
            steps,
        )
    }
}
