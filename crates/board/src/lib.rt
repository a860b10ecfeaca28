// Boards: placements in the making, with at most one item in hand.
#![tactic(auto)]

mod board;
mod token;
mod uses;

pub use board::Board;
pub use token::{Refused, Token};
pub use uses::{set_or_back, try_lift};
