//! How many calls were made, and whether each agreed with the scan.

use std::fmt;

/// What a call of the window answered.
#[derive(Clone, Copy)]
pub(super) enum Outcome {
    Put,
    Returned,
    Told,
    Absent,
    Passed,
}

#[derive(Default, Drop)]
pub(super) struct Tally {
    cases: u32,
    puts: u32,
    returned: u32,
    told: u32,
    absent: u32,
    passed: u32,
    disagreed: u32,
}

impl Tally {
    pub(super) fn count_case(&mut self) {
        self.cases = self.cases.saturating_add(1);
    }

    pub(super) fn count(&mut self, outcome: Outcome, agreed: bool) {
        let times = match outcome {
            Outcome::Put => &mut self.puts,
            Outcome::Returned => &mut self.returned,
            Outcome::Told => &mut self.told,
            Outcome::Absent => &mut self.absent,
            Outcome::Passed => &mut self.passed,
        };
        *times = times.saturating_add(1);
        if !agreed {
            self.disagreed = self.disagreed.saturating_add(1);
        }
    }
}

impl fmt::Display for Tally {
    fn fmt<W: fmt::Write>(&self, f: &mut fmt::Formatter<W>) -> fmt::Result {
        write!(f, "{} cases, {} entries put in, ", self.cases, self.puts)?;
        write!(f, "{} returned, {} told, ", self.returned, self.told)?;
        write!(f, "{} absent, {} passed, ", self.absent, self.passed)?;
        if self.disagreed == 0 {
            write!(f, "all agreed")
        } else {
            write!(f, "{} disagreed", self.disagreed)
        }
    }
}
