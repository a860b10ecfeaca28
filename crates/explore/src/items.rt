// What lies where.
ghost use Rattle.std.specs.Prelude.{◌≡◌, length, take};
ghost use Rattle.model.specs.Placements.{item_at};
ghost use Rattle.world.specs.Worlds.{world_of};

use world::World;

// The item at a place; none past the placement's end.
pub(crate) fn item_at(placement: &[Option<u16>], place: usize) -> Option<u16>
    ensures { result ≡ item_at placement.now place }
{
    placement.get(place).copied().flatten()
}

// The records of the world's own places. A placement may be any longer: what stands behind them is not looked at.
pub(crate) fn own_records<'p>(world: &World, placement: &'p [Option<u16>]) -> &'p [Option<u16>]
    ensures { result.now ≡ take (length (world_of world.now).places) placement.now }
{
    placement.get(..world.places().len()).unwrap_or(placement)
}
