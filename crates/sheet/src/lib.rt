// Placements as tables of place records, sheets, and sheet files.
#![tactic(auto)]

mod laws;
mod refusal;
mod sheet;
mod table;

pub use laws::files_are_read_back;
pub use refusal::{LoadRefusal, PlaceRefusal, ShortBuffer};
pub use sheet::Sheet;
pub use table::{PlaceRecord, PlaceTable};
