// Which places of a world are marked.
ghost use Rattle.std.specs.Prelude.{◌≡◌};
ghost use Rattle.model.specs.Marks.{at};
ghost use Rattle.world.specs.Worlds.{world_of};
ghost use Rattle.explore.specs.Marked.{places_in};

use scratch::{Marks, Places};
use world::World;

// Whether a place of the world is marked.
pub fn is_marked(world: &World, place: usize, places: &Places) -> bool
    ensures { result ≡ at (places_in (world_of world.now) places.now) place }
{
    place < world.places().len() && places.has(place)
}
