// The items that lie nowhere.
ghost use Rattle.std.specs.Prelude.{◌≡◌};
ghost use Rattle.model.specs.Boards.{unset};
ghost use Rattle.world.specs.Worlds.{world_of};

use crate::numbers::numbers_where;
use arrayvec::ArrayVec;
use sheet::PlaceTable;
use world::World;

// The items of the pool that are not set, in rising number.
pub(crate) fn unset_items(world: &World, table: &PlaceTable) -> ArrayVec<u16, 256>
    ensures { result.items ≡ unset (world_of world.now) table.now }
{
    numbers_where(world.pool().len() as u16, |item| !table.is_set(*item))
}
