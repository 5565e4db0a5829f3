//! Slips: questions as bytes.
#![tactic(auto)]

mod fault;
mod price_kind;
#[cfg(test)]
mod tests;
mod view;
mod writer;

pub use fault::{SlipFault, SlipWriteFault};
pub use price_kind::{PriceKind, UnknownPrice};
pub use view::Slip;
pub use writer::write_slip;
