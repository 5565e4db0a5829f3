//! From a book and a slip to the report on them.
#![tactic(auto)]

mod answering;
mod fault;
mod memory;
mod parts;
mod reporting;
mod telling;
mod wording;

pub use fault::ReportFault;
pub use reporting::report;
