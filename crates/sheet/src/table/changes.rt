// Changing one record of a table.
ghost use Rattle.std.specs.Prelude.{◌≡◌, ℕ, ◌<◌, true, [], ◌∷◌, ◌++◌, length, is_ok, if◌then◌else◌, None, Ok, slice_set};
ghost use Rattle.std.specs.Result.{result_err};
ghost use Rattle.sheet.specs.Records.{may_lie};
ghost use Rattle.sheet.specs.Changes.{set_refusal, laid, taken_up, told, left_by};
ghost use Rattle.sheet.specs.Tables.{Sound};

use super::{PlaceRecord, PlaceTable};
use crate::refusal::PlaceRefusal;

impl PlaceTable {
    // Lays an item down at a place where none lies.
    pub fn set(&mut self, place: usize, item: u16) -> Result<(), PlaceRefusal>
        ensures answer { result ≡ told (laid self.old place item) }
        ensures placement { self.new ≡ left_by (laid self.old place item) self.old }
        ensures before { Sound self.old }
        ensures sound { Sound self.new }
    {
        self.check_set(place, item)?;
        self.put(place, Some(item));
        Ok(())
    }

    // Takes the item away that lies at a place.
    pub fn take_up(&mut self, place: usize) -> Result<u16, PlaceRefusal>
        ensures answer { result ≡ taken_up self.old place }
        ensures placement { self.new ≡ (if is_ok result then slice_set self.old place None else self.old) }
        ensures small { (i : ℕ) → result ≡ Ok i → i < 256 }
        ensures before { Sound self.old }
        ensures sound { Sound self.new }
    {
        let found = *self.placement().get(place).ok_or(PlaceRefusal::NoPlace)?;
        let item = found.ok_or(PlaceRefusal::PlaceEmpty)?;
        self.put(place, None);
        Ok(item)
    }

    // Whether an item may be laid down at a place.
    fn check_set(&self, place: usize, item: u16) -> Result<(), PlaceRefusal>
        ensures refusal { result_err result ≡ set_refusal self.now place item }
        ensures sound { Sound self.now }
    {
        if place >= self.count() {
            return Err(PlaceRefusal::NoPlace);
        }
        if self.item_at(place).is_some() {
            return Err(PlaceRefusal::PlaceTaken);
        }
        if item >= 256 {
            return Err(PlaceRefusal::NoItem);
        }
        if self.is_set(item) {
            return Err(PlaceRefusal::ItemSet);
        }
        Ok(())
    }

    // Writes over a record.
    fn put(&mut self, place: usize, change: PlaceRecord)
        requires place { place < length self.old }
        requires fresh { may_lie self.old change ≡ true }
        ensures placement { self.new ≡ slice_set self.old place change }
        ensures sound { Sound self.new }
    {
        prove!(place < self.count);
        self.records[place] = change;
    }

    // One place more, behind the others.
    pub(crate) fn push(&mut self, last: PlaceRecord)
        requires room { length self.old < 256 }
        requires fresh { may_lie self.old last ≡ true }
        ensures { self.new ≡ self.old ++ last ∷ [] }
    {
        self.records[self.count] = last;
        self.count += 1;
    }
}
