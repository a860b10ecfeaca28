// Which places are open with what a player holds.
ghost use Rattle.std.specs.Prelude.{◌≡◌};
ghost use Rattle.inventory.specs.Meaning.{held};
ghost use Rattle.scratch.specs.Marks.{region_marks, place_marks};
ghost use Rattle.model.specs.Marks.{Sub};
ghost use Rattle.model.specs.Worlds.{reached, opens, finishable};
ghost use Rattle.world.specs.Worlds.{world_of, rule_at, KnownPlace};
ghost use Rattle.explore.specs.Marked.{regions_in, places_in};
ghost use Rattle.explore.specs.Gathering.{newly, Grew};

use crate::player::Player;
use inventory::Inventory;
use scratch::{Marks, Places, Regions};
use world::{Place, World};

impl<I: Inventory> Player<'_, I> {
    // Whether a place that is not marked lies in a marked region and has a rule that is met.
    pub(crate) fn opens_now(
        &self,
        k: usize,
        place: Place,
        regions: &Regions,
        places: &Places,
    ) -> bool
        requires { KnownPlace self.now.world.now place }
        ensures { result ≡ newly (held I.Inventory.meaning (I.Inventory.value self.now.held)) k place.region (rule_at self.now.world.now place.rule) (region_marks regions.now) (place_marks places.now) }
    {
        !places.has(k) && regions.has(usize::from(place.region)) && self.meets_rule(place.rule)
    }

    // Marks each place that is open, where the regions reached are marked. Says whether one is new.
    pub(crate) fn open_places(&self, regions: &Regions, places: &mut Places) -> bool
        requires reached { regions_in (world_of self.now.world.now) regions.now ≡ reached I.Inventory.meaning (world_of self.now.world.now) (I.Inventory.value self.now.held) }
        requires below { Sub (places_in (world_of self.now.world.now) places.old) (opens I.Inventory.meaning (world_of self.now.world.now) (I.Inventory.value self.now.held)) }
        ensures opens { places_in (world_of self.now.world.now) places.new ≡ opens I.Inventory.meaning (world_of self.now.world.now) (I.Inventory.value self.now.held) }
        ensures grew { Grew result (places_in (world_of self.now.world.now) places.old) (places_in (world_of self.now.world.now) places.new) }
    {
        let mut grew = false;
        for (k, place) in self.world.places().iter().enumerate() {
            if self.opens_now(k, *place, regions, places) {
                places.mark(k);
                grew = true;
            }
        }
        grew
    }

    // Marks the places open, and the regions reached.
    pub fn mark_open(&self, regions: &mut Regions, places: &mut Places)
        ensures places { places_in (world_of self.now.world.now) places.new ≡ opens I.Inventory.meaning (world_of self.now.world.now) (I.Inventory.value self.now.held) }
        ensures regions { regions_in (world_of self.now.world.now) regions.new ≡ reached I.Inventory.meaning (world_of self.now.world.now) (I.Inventory.value self.now.held) }
    {
        places.clear();
        self.mark_reached(regions);
        let _ = self.open_places(regions, places);
    }
}

// Marks the places that are open with the stock and the whole pool.
pub fn mark_finishable<I: Inventory>(world: &World, regions: &mut Regions, places: &mut Places)
    ensures { places_in (world_of world.now) places.new ≡ finishable I.Inventory.meaning (world_of world.now) }
{
    let mut player = Player::<I>::with_stock(world);
    player.add_pool();
    player.mark_open(regions, places);
}
