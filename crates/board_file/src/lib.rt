// The memory of a board: which addresses its core has, read from a text of lines.
#![tactic(auto)]

mod boards;
mod lines;
mod machines;
mod reading;
mod troubles;

pub use boards::{Alias, Board};
pub use reading::{BOARD_MOST, read_board};
pub use troubles::{BoardFault, Trouble, Why};

/// The most regions, and the most aliases, of a board.
pub const PARTS_MOST: usize = 64;
