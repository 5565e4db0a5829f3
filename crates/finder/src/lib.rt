//! Scores, the terms of a search, questions, and lists of calls.
//!
//! What is promised of every list of calls stands in the contract of `perform`.
#![tactic(auto)]

mod call;
mod editing;
#[cfg(test)]
mod examples;
mod filling;
mod limit;
mod limit_fault;
mod limiting;
#[cfg(test)]
mod lists;
mod outcome;
mod performing;
mod question;
mod questioning;
mod score;
mod score_fault;
mod session;
mod terms;
#[cfg(test)]
mod tests;
mod trial;

pub use call::{Call, PriceKind, Room};
pub use limit::Limit;
pub use limit_fault::LimitFault;
pub use outcome::{Outcome, Performance, Told};
pub use performing::perform;
pub use score::Score;
pub use score_fault::ScoreFault;
pub use terms::Terms;
pub use trial::{Trial, tried_twice};
