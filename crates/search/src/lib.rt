//! Finding a query in the symbols of a score.
#![tactic(auto)]

mod answering;
mod candidates;
mod choosing;
mod fault;
mod finding;
mod pieces;
mod places;
mod query;
mod question;
mod row;
mod rows;
mod sheets;
mod size;
mod table;
mod tally;
mod topping;
mod transposing;
mod wanting;

pub use fault::{ListFault, QueryFault, QuestionFault, TransposeFault};
pub use finding::{find, workspace_size};
pub use transposing::transposed;
