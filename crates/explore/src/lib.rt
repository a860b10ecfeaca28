// What is open in a world, what is gathered from a placement, and in which sphere.
#![tactic(auto)]

mod asks;
mod gather;
mod items;
mod marks;
mod places;
mod player;
mod reach;
mod rules;
mod spheres;
mod waiting;
mod whole;

pub use asks::{ask_finishable, ask_sphere, ask_whole};
pub use marks::is_marked;
pub use places::mark_finishable;
pub use player::Player;
pub use scratch::FewMarks;
pub use spheres::sphere;
pub use whole::is_whole;
