// Making a table.
ghost use Rattle.std.specs.Prelude.{◌≡◌, ◌≤◌, [], length, replicate, None};
ghost use Rattle.world.specs.Worlds.{world_of};
ghost use Rattle.sheet.specs.Tables.{Sound, blank};

use super::PlaceTable;
use world::World;

// How many places a world has.
pub(crate) fn place_count(world: &World) -> usize
    ensures count { result ≡ length (world_of world.now).places }
    ensures few { result ≤ 256 }
{
    world.places().len()
}

fn empty(count: usize) -> PlaceTable
    requires { count ≤ 256 }
    ensures placement { result ≡ replicate count None }
    ensures sound { Sound result }
{
    PlaceTable {
        records: [None; 256],
        count,
    }
}

impl PlaceTable {
    // A table without places, as a new world has none.
    pub fn new() -> PlaceTable
        ensures placement { result ≡ [] }
        ensures sound { Sound result }
    {
        empty(0)
    }

    // A record for each place of a world, and no item anywhere.
    pub fn for_world(world: &World) -> PlaceTable
        ensures placement { result ≡ blank (world_of world.now) }
        ensures sound { Sound result }
    {
        empty(place_count(world))
    }
}
