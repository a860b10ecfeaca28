// A board: a placement in the making, and the item in hand.
ghost use Rattle.std.specs.Prelude.{◌≡◌, ◌<◌, length};
ghost use Rattle.world.specs.Worlds.{world_of};
ghost use Rattle.sheet.specs.Tables.{Sound};
ghost use Rattle.board.specs.Hands.{HandKnown, HandUnset};

use sheet::PlaceTable;
use std::marker::PhantomData;
use world::World;

mod calls;
mod makes;
mod reads;
mod sets;

// What lies on a board: a record for each place, and the item in hand or none. It is plain data, apart from the world
// and from what is known of both, by a rule of the project.
#[derive(Clone, Copy)]
struct Layout {
    table: PlaceTable,
    hand: Option<u16>,
}

// A board of a world, for one inventory. What a set would be refused for is asked of the world each time. Only its kind
// says which inventory: a board that kept a player would ask for the bound at each place that names its type. It has no
// `impl Model`: what is known of its fields is a caller's to use, and an invariant of a model would hide it.
#[derive(Drop)]
pub struct Board<'w, I> {
    world: &'w World,
    layout: Layout,
    kind: PhantomData<I>,
    ghost sound: { Sound layout.table },
    ghost fits: { length layout.table ≡ length (world_of world.now).places },
    ghost hand_known: { HandKnown (world_of world.now) layout.hand },
    ghost hand_unset: { HandUnset layout.table layout.hand },
}
