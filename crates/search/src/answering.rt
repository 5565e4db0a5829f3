//! The answer to a question about symbols that stand column after column.

ghost use Rattle.std.specs.Prelude.{◌≡◌, map, length};
ghost use Rattle.splitting.specs.Score.{Question};
ghost use Rattle.splitting.specs.Answer.{Answers, meant};
ghost use Rattle.search.specs.Candidates.{Asked};
ghost use Rattle.search.specs.Questions.{Granted};

use super::candidates::settle;
use super::pieces::write_pieces;
use super::question::Asking;
use super::sheets::Sheets;
use super::table::{Ground, count_later, link_places};
use super::tally::Tally;
use super::wanting::Want;
use book::Grid;
use notation::Symbol;
use price::Price;
use splitting::{Answer, Found, Piece};

// The answer, from the tables over the places.
fn answer_from<S: Symbol, P: Price>(
    ground: &Ground<S>,
    asking: &Asking<S>,
    want: &mut [u8],
    list: &mut [Piece],
    sheets: &mut Sheets<P>,
) -> Answer<P>
    requires granted { Granted (map S.byte ground.now.tally.cells.now) ground.now.tracks S.kind asking.now.mode asking.now.limit (map S.byte asking.now.query.notes.now) (length list.old) sheets.old }
    requires as_long { length want.old ≡ length asking.now.query.notes.now }
    ensures { (ask : Question) → Asked ask (map S.byte ground.now.tally.cells.now) ground.now.tracks S.kind asking.now.mode asking.now.limit (map S.byte asking.now.query.notes.now) → Answers ask P.pricing (meant P.meaning result) list.old list.new }
{
    let Some(best) = settle(ground, asking, want, sheets) else {
        return Answer::None;
    };
    let want = Want { bytes: want };
    let count = write_pieces::<S, P>(ground, want, sheets.steps, best.place, list);
    Answer::Found(Found {
        price: best.price,
        count,
        shift: best.shift,
        place: ground.place_of(best.place),
    })
}

// The answer to a question about the symbols of a grid, which are counted in a tally, by tables over
// their places.
pub(crate) fn answer<'a, S: Symbol, P: Price>(
    grid: &'a Grid<'_, S>,
    tally: Tally<'a, S>,
    asking: &Asking<S>,
    list: &mut [Piece],
    sheets: &mut Sheets<P>,
) -> Answer<P>
    requires counted { tally.cells.now ≡ grid.now.symbols.now }
    requires granted { Granted (map S.byte grid.now.symbols.now) grid.now.tracks S.kind asking.now.mode asking.now.limit (map S.byte asking.now.query.notes.now) (length list.old) sheets.old }
    ensures { (ask : Question) → Asked ask (map S.byte grid.now.symbols.now) grid.now.tracks S.kind asking.now.mode asking.now.limit (map S.byte asking.now.query.notes.now) → Answers ask P.pricing (meant P.meaning result) list.old list.new }
{
    let mut previous = [0u32; 65536];
    let mut after = [0u16; 65536];
    let last = link_places(&tally, &mut previous);
    count_later(&tally, &mut after);
    let ground = Ground {
        tracks: grid.tracks(),
        previous: &previous[..tally.cells.len()],
        after: &after,
        last: &last,
        tally,
    };
    let mut want = [0u8; 64];
    let notes = asking.query.notes.len();
    answer_from(&ground, asking, &mut want[..notes], list, sheets)
}
