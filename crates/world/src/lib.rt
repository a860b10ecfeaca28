// Worlds: their tables, made row by row, and never any other than well formed.
#![tactic(auto)]

mod draft;
mod refusal;
mod rows;
mod rules;
mod table;
mod world;

pub use draft::Draft;
pub use refusal::{BuildRefusal, Incomplete};
pub use rows::{Gate, Part, Place};
pub use rules::{is_formed, weigh};
pub use world::World;
