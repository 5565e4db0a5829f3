//! The calls that change a score by hand. A refusal changes nothing.

ghost use Rattle.std.specs.Prelude.{map, length};
ghost use Rattle.finder.specs.Edits.{appended, corrected, first_columns};
ghost use Rattle.finder.specs.ScoreRules.{append_refusal, correct_refusal, cut_refusal};
ghost use Rattle.finder.specs.Scores.{columns_held, Changed, SymbolTold};

use super::score::Score;
use super::score_fault::ScoreFault;
use notation::Symbol;

impl<S: Symbol> Score<S> {
    /// Puts a column last.
    pub fn append(&mut self, column: &[S]) -> Result<(), ScoreFault>
        ensures { Changed S.byte (append_refusal self.old.tracks self.old.capacity self.old.columns (length column.now)) (appended (columns_held S.byte self.old) (map S.byte column.now)) self.old self.new result }
    {
        let tracks = column.len();
        if tracks != self.tracks {
            return Err(ScoreFault::OtherTracks { tracks });
        }
        let capacity = self.capacity;
        if self.columns >= capacity {
            return Err(ScoreFault::NoRoom { capacity });
        }
        let from = self.columns * tracks;
        self.memory[from..from + tracks].copy_from_slice(column);
        self.columns += 1;
        Ok(())
    }

    /// Puts another symbol into a column on a track, both counted from 1.
    pub fn correct(&mut self, column: usize, track: usize, symbol: S) -> Result<(), ScoreFault>
        ensures { Changed S.byte (correct_refusal self.old.tracks self.old.columns column track) (corrected (columns_held S.byte self.old) column track (S.byte symbol)) self.old self.new result }
    {
        if column < 1 || column > self.columns {
            return Err(ScoreFault::NoColumn { column });
        }
        if track < 1 || track > self.tracks {
            return Err(ScoreFault::NoTrack { track });
        }
        let at = (column - 1) * self.tracks + (track - 1);
        self.memory[at] = symbol;
        Ok(())
    }

    /// Keeps so many first columns.
    pub fn cut(&mut self, columns: usize) -> Result<(), ScoreFault>
        ensures { Changed S.byte (cut_refusal self.old.columns columns) (first_columns (columns_held S.byte self.old) columns) self.old self.new result }
    {
        if columns > self.columns {
            return Err(ScoreFault::TooFew { columns });
        }
        self.columns = columns;
        Ok(())
    }

    /// The symbol in a column on a track, both counted from 1; absent where there is no such place.
    pub fn symbol(&self, column: usize, track: usize) -> Option<S>
        ensures { SymbolTold S.byte self.now column track result }
    {
        if column < 1 || column > self.columns || track < 1 || track > self.tracks {
            return None;
        }
        Some(self.memory[(column - 1) * self.tracks + (track - 1)])
    }
}
