// An attempt: what lies where so far, and the items that are left to set.
ghost use Rattle.std.specs.Prelude.{◌≡◌};
ghost use Rattle.model.specs.Boards.{unset};
ghost use Rattle.world.specs.Worlds.{world_of};
ghost use Rattle.filling.specs.Steps.{Fresh, Fresh-prop};

use crate::unset::unset_items;
use arrayvec::ArrayVec;
use sheet::PlaceTable;
use world::World;

// What lies where so far, and the items that are left to set: they are apart from each other and lie nowhere.
#[derive(Drop)]
pub(crate) struct Attempt<'w> {
    pub(crate) world: &'w World,
    pub(crate) table: PlaceTable,
    pub(crate) left: ArrayVec<u16, 256>,
    ghost fresh: { Fresh table left.items } by { Fresh-prop table left.items },
}

impl<'w> Attempt<'w> {
    // The items that a table does not have are left to set.
    pub(crate) fn begin(world: &'w World, table: PlaceTable) -> Attempt<'w>
        ensures world { result.world ≡ world.entry }
        ensures table { result.table ≡ table }
        ensures left { result.left.items ≡ unset (world_of world.now) table }
    {
        let left = unset_items(world, &table);
        Attempt { world, table, left }
    }
}
