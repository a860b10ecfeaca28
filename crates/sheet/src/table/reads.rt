// Reading a table.
ghost use Rattle.std.specs.Prelude.{◌≡◌, ℕ, ◌<◌, ◌≤◌, true, length, Some};
ghost use Rattle.model.specs.Placements.{item_at, Once};
ghost use Rattle.model.specs.Boards.{is_set};
ghost use Rattle.sheet.specs.Tables.{Sound};

use super::{PlaceRecord, PlaceTable};

impl PlaceTable {
    // How many places there are.
    pub fn count(&self) -> usize
        ensures count { result ≡ length self.now }
        ensures few { result ≤ 256 }
        ensures sound { Sound self.now }
    {
        self.count
    }

    // The records, as a placement. Its length is told with it, since no type of a slice has a bound.
    pub fn placement(&self) -> &[PlaceRecord]
        ensures records { result.now ≡ self.now }
        ensures few { length result.now ≤ 256 }
        ensures once { Once result.now }
        ensures small { (k i : ℕ) → item_at result.now k ≡ Some i → i < 256 }
        ensures sound { Sound self.now }
    {
        &self.records[..self.count]
    }

    // What lies at a place; nothing where there is no such place.
    pub fn item_at(&self, place: usize) -> Option<u16>
        ensures item { result ≡ item_at self.now place }
        ensures small { (i : ℕ) → result ≡ Some i → i < 256 }
        ensures sound { Sound self.now }
    {
        self.placement().get(place).copied().flatten()
    }

    // Whether an item lies somewhere.
    pub fn is_set(&self, item: u16) -> bool
        ensures answer { result ≡ is_set self.now item }
        ensures small { result ≡ true → item < 256 }
        ensures sound { Sound self.now }
    {
        self.placement().contains(&Some(item))
    }
}
