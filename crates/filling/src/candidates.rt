// Where an item can be set: at the empty places that are marked as gathered.
ghost use Rattle.std.specs.Prelude.{◌≡◌};
ghost use Rattle.scratch.specs.Marks.{place_marks};
ghost use Rattle.model.specs.Fills.{candidates};
ghost use Rattle.world.specs.Worlds.{world_of};
ghost use Rattle.explore.specs.Marked.{places_in};
ghost use Rattle.filling.specs.Steps.{fits_at, empty_marked};

use crate::attempt::Attempt;
use crate::numbers::numbers_where;
use arrayvec::ArrayVec;
use inventory::Inventory;
use scratch::{Marks, Places, Regions};

impl Attempt<'_> {
    // Whether a place is empty and marked.
    fn is_candidate(&self, place: u16, places: &Places) -> bool
        ensures { result ≡ fits_at self.now.table (place_marks places.now) place }
    {
        let place = place as usize;
        self.table.item_at(place).is_none() && places.has(place)
    }

    // The world's places that are empty and marked, in rising number.
    fn empty_marked(&self, places: &Places) -> ArrayVec<u16, 256>
        ensures { result.items ≡ empty_marked (world_of self.now.world.now) self.now.table (places_in (world_of self.now.world.now) places.now) }
    {
        numbers_where(
            self.world.places().len() as u16,
            |place| self.is_candidate(*place, places),
        )
    }

    // The empty places gathered with the items that are left.
    pub(crate) fn candidates<I: Inventory>(
        &self,
        regions: &mut Regions,
        places: &mut Places,
    ) -> ArrayVec<u16, 256>
        ensures { result.items ≡ candidates I.Inventory.meaning (world_of self.now.world.now) self.now.table self.now.left.items }
    {
        self.gather::<I>(regions, places);
        self.empty_marked(places)
    }
}
