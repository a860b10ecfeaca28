// Memory that a caller lends: a stack over a borrowed slice, and the work marks.
#![tactic(auto)]

mod changing;
mod few_marks;
mod lending;
mod marks;
mod stack;

pub use changing::with_marks_mut;
pub use few_marks::FewMarks;
pub use lending::with_marks;
pub use marks::{Marks, Places, Regions, WORK_MARKS};
pub use stack::Stack;
