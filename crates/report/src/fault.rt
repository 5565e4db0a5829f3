//! Why an input is not reported on.

ghost use Rattle.std.specs.Prelude.{◌≡◌};
ghost use Rattle.report.specs.declared.fault.ReportFault.TheVariants.{Memory, OfOutput};

use book::TooShort;
use std::alloc::AllocError;
use std::error::Error;
use std::fmt;

/// Why there is no report on an input.
#[derive(Clone, Copy, Debug, PartialEq, Eq)]
pub enum ReportFault {
    /// There is no memory to answer or to tell in.
    Memory,
    /// The output is too short.
    OfOutput(TooShort),
}

impl fmt::Display for ReportFault {
    fn fmt<W: fmt::Write>(&self, f: &mut fmt::Formatter<W>) -> fmt::Result {
        f.write_str(match self {
            ReportFault::Memory => "no memory",
            ReportFault::OfOutput(_) => "the report is too long",
        })
    }
}

impl Error for ReportFault {}

impl From<AllocError> for ReportFault {
    ghost from_gives = { λ _ r. r ≡ Memory };

    fn from(_error: AllocError) -> ReportFault {
        ReportFault::Memory
    }
}

impl From<TooShort> for ReportFault {
    ghost from_gives = { λ f r. r ≡ OfOutput f };

    fn from(fault: TooShort) -> ReportFault {
        ReportFault::OfOutput(fault)
    }
}
