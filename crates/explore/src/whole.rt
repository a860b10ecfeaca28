// Whether a placement is whole.
ghost use Rattle.std.specs.Prelude.{◌≡◌, nat_eq};
ghost use Rattle.model.specs.Marks.{any};
ghost use Rattle.model.specs.Placements.{lying, whole as whole_of};
ghost use Rattle.world.specs.Worlds.{world_of};
ghost use Rattle.explore.specs.Marked.{places_in};

use crate::items::own_records;
use crate::marks::is_marked;
use crate::player::Player;
use inventory::Inventory;
use scratch::{Places, Regions};
use world::World;

// Whether the item lies at one of the marked places.
fn lies_marked(world: &World, placement: &[Option<u16>], item: u16, places: &Places) -> bool
    ensures { result ≡ any (nat_eq item) (lying placement.now (places_in (world_of world.now) places.now)) }
{
    own_records(world, placement).iter().enumerate().any(|(k, lies)| *lies == Some(item)
        && is_marked(world, k, places))
}

// Whether each item of the pool lies at a place gathered from the stock: asked of a world, as a sphere is.
pub fn is_whole<I: Inventory>(
    world: &World,
    placement: &[Option<u16>],
    regions: &mut Regions,
    places: &mut Places,
) -> bool
    ensures { result ≡ whole_of I.Inventory.meaning (world_of world.now) placement.now }
{
    Player::<I>::with_stock(world).mark_gathered(placement, regions, places);
    (0..world.pool().len() as u16).all(|item| lies_marked(world, placement, item, places))
}
