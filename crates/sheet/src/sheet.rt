// A sheet: a placement with its count of places, to be kept in a file.
ghost use Rattle.std.specs.Prelude.{◌≡◌, []};
ghost use Rattle.sheet.specs.Tables.{Sound};

use crate::table::PlaceTable;

mod load;
mod write;

#[derive(Clone, Copy)]
pub struct Sheet {
    pub table: PlaceTable,
}

impl Sheet {
    // The sheet of a new world, which has no places.
    pub fn new() -> Sheet
        ensures table { result.table ≡ [] }
        ensures sound { Sound result.table }
    {
        Sheet {
            table: PlaceTable::new(),
        }
    }
}
