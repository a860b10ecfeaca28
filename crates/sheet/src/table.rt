// A table of place records: which item lies at each place, and no item at two.
use std::marker::Model;

mod changes;
mod makes;
mod reads;

pub(crate) use makes::place_count;

// The item that lies at a place, or none. It is an option and not a struct of its own, so that a table lends
// its records as they stand to all that explores a world.
pub type PlaceRecord = Option<u16>;

// A placement. Its records lie in it: no memory is asked for, and it is copied, which an `ArrayVec` is not.
#[derive(Clone, Copy)]
pub struct PlaceTable {
    records: [PlaceRecord; 256],
    count: usize,
}

// Callers see the placement alone, and not what the invariant says of it: so each call that is given a table, makes or
// leaves one has a clause that does (`Sound`).
impl Model for PlaceTable {
    ghost use Rattle.model.specs.Placements.{Placement};

    ghost Value = { Placement };

    ghost use Rattle.sheet.specs.Inside.{placement_in, Keeps, table_of};
    ghost use Rattle.sheet.specs.GivenBack.{given_back};

    ghost view = { placement_in };

    ghost invariant = { Keeps };

    ghost inverse = { table_of };

    ghost inverse_ok = { given_back };
}
