//! Books: scores as bytes, and the blocks that they share with slips.
#![tactic(auto)]

mod block;
mod checked;
mod fault;
mod grid;
mod letter;
mod reader;
mod refusal;
mod sealing;
mod shape;
mod stage;
mod text;
mod view;
mod writer;

pub use block::{check_block, number_of};
pub use fault::{BlockFault, BookFault, DescribeFault, TooShort};
pub use grid::Grid;
pub use letter::{Letter, UnknownLetter};
pub use refusal::{Layer, Refusal};
pub use sealing::{has_room, put_block};
pub use stage::{fits_place, readable_front};
pub use text::{describe, named_kind, put_text, refused_line};
pub use view::Book;
