// In which sphere a place is gathered: by whole rounds.
ghost use Rattle.std.specs.Prelude.{◌≡◌};
ghost use Rattle.model.specs.Marks.{Sub};
ghost use Rattle.model.specs.Worlds.{with_items};
ghost use Rattle.model.specs.Placements.{lying, gains, sphere as sphere_of};
ghost use Rattle.world.specs.Worlds.{world_of};
ghost use Rattle.explore.specs.Marked.{places_in};
ghost use Rattle.explore.specs.Gathering.{Grew};

use crate::items::own_records;
use crate::marks::is_marked;
use crate::player::Player;
use inventory::Inventory;
use scratch::{Marks, Places, Regions};
use world::World;

impl<I: Inventory> Player<'_, I> {
    // Joins the items on that lie at marked places.
    fn add_marked(&mut self, placement: &[Option<u16>], places: &Places)
        ensures world { self.new.world ≡ self.old.world }
        ensures held { I.Inventory.value self.new.held ≡ with_items I.Inventory.meaning (world_of self.old.world.now) (I.Inventory.value self.old.held) (lying placement.now (places_in (world_of self.old.world.now) places.now)) }
    {
        let own = own_records(self.world, placement);
        for (k, lies) in own.iter().enumerate() {
            if is_marked(self.world, k, places) {
                self.add_lying(*lies);
            }
        }
    }

    // One round: marks the places open with what is held and what lies at marked places. Says whether one is new.
    fn gather_round(
        &self,
        placement: &[Option<u16>],
        regions: &mut Regions,
        places: &mut Places,
    ) -> bool
        requires { Sub (places_in (world_of self.now.world.now) places.old) (gains I.Inventory.meaning (world_of self.now.world.now) placement.now (I.Inventory.value self.now.held) (places_in (world_of self.now.world.now) places.old)) }
        ensures gains { places_in (world_of self.now.world.now) places.new ≡ gains I.Inventory.meaning (world_of self.now.world.now) placement.now (I.Inventory.value self.now.held) (places_in (world_of self.now.world.now) places.old) }
        ensures grew { Grew result (places_in (world_of self.now.world.now) places.old) (places_in (world_of self.now.world.now) places.new) }
    {
        // By its fields: the check does not cover a copy of all of it from behind a reference.
        let mut player = Player { ..*self };
        player.add_marked(placement, places);
        player.mark_reached(regions);
        player.open_places(regions, places)
    }
}

// The round, counted from 1, that first gathers the place from the stock. It is counted from the stock alone, so it is
// asked of a world and not of a player, who may hold more.
pub fn sphere<I: Inventory>(
    world: &World,
    placement: &[Option<u16>],
    place: usize,
    regions: &mut Regions,
    places: &mut Places,
) -> Option<u16>
    ensures { result ≡ sphere_of I.Inventory.meaning (world_of world.now) placement.now place }
{
    let count = world.places().len() as u16;
    if place >= usize::from(count) {
        return None;
    }
    let start = Player::<I>::with_stock(world);
    places.clear();
    // No index: the round is what is answered.
    for round in 1..=count {
        let grew = start.gather_round(placement, regions, places);
        if places.has(place) {
            return Some(round);
        }
        if !grew {
            return None;
        }
    }
    None
}
