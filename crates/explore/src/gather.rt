// Which places are gathered from what a player holds: each item counts as soon as its place is open.
ghost use Rattle.std.specs.Prelude.{◌≡◌, length};
ghost use Rattle.scratch.specs.Marks.{region_marks};
ghost use Rattle.model.specs.Worlds.{reached};
ghost use Rattle.model.specs.Placements.{gathered};
ghost use Rattle.world.specs.Worlds.{world_of};
ghost use Rattle.explore.specs.Marked.{regions_in, places_in};
ghost use Rattle.explore.specs.Gathering.{in_the_end, Grew, Ahead, Quiet};

use crate::items::item_at;
use crate::player::Player;
use inventory::Inventory;
use scratch::{Marks, Places, Regions};

impl<I: Inventory> Player<'_, I> {
    // Marks each place of a marked region whose rule is met, and joins its item on. Says whether a place is new.
    // A pass of its own beside open_places: one pass with its step handed in is no plainer, for this step writes what the test reads.
    fn take_open(
        &mut self,
        placement: &[Option<u16>],
        regions: &Regions,
        places: &mut Places,
    ) -> bool
        ensures world { self.new.world ≡ self.old.world }
        ensures ahead { (v : I.Inventory.meaning.Value) → Ahead I.Inventory.meaning (world_of self.old.world.now) placement.now v (region_marks regions.now) (places_in (world_of self.old.world.now) places.old) (I.Inventory.value self.old.held) → Ahead I.Inventory.meaning (world_of self.old.world.now) placement.now v (region_marks regions.now) (places_in (world_of self.old.world.now) places.new) (I.Inventory.value self.new.held) }
        ensures grew { Grew result (places_in (world_of self.old.world.now) places.old) (places_in (world_of self.old.world.now) places.new) }
        ensures quiet { Quiet I.Inventory.meaning (world_of self.old.world.now) result (I.Inventory.value self.old.held) (I.Inventory.value self.new.held) (region_marks regions.now) (places_in (world_of self.old.world.now) places.new) (length (world_of self.old.world.now).places) }
    {
        let mut grew = false;
        for (k, place) in self.world.places().iter().enumerate() {
            if self.opens_now(k, *place, regions, places) {
                places.mark(k);
                self.add_lying(item_at(placement, k));
                grew = true;
            }
        }
        grew
    }

    // Marks the places gathered from what is held, and the regions reached in the end.
    pub fn mark_gathered(
        &self,
        placement: &[Option<u16>],
        regions: &mut Regions,
        places: &mut Places,
    )
        ensures places { places_in (world_of self.now.world.now) places.new ≡ gathered I.Inventory.meaning (world_of self.now.world.now) placement.now (I.Inventory.value self.now.held) }
        ensures regions { regions_in (world_of self.now.world.now) regions.new ≡ reached I.Inventory.meaning (world_of self.now.world.now) (in_the_end I.Inventory.meaning (world_of self.now.world.now) placement.now (I.Inventory.value self.now.held)) }
    {
        regions.clear();
        regions.mark(0);
        places.clear();
        // By its fields: the check does not cover a copy of all of it from behind a reference.
        let mut player = Player { ..*self };
        loop {
            player.spread(regions);
            if !player.take_open(placement, regions, places) {
                break;
            }
        }
    }
}
