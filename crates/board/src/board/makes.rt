// Making a board.
ghost use Rattle.std.specs.Prelude.{◌≡◌};
ghost use Rattle.model.specs.Boards.{goal_met};
ghost use Rattle.world.specs.Worlds.{world_of};
ghost use Rattle.board.specs.Boards.{Made};

use super::{Board, Layout};
use explore::Player;
use inventory::Inventory;
use model::BoardRefusal;
use sheet::PlaceTable;
use std::marker::PhantomData;
use world::World;

// Whether the stock and the whole pool meet the goal.
fn can_meet_goal<I: Inventory>(world: &World) -> bool
    ensures { result ≡ goal_met I.Inventory.meaning (world_of world.now) }
{
    let mut player = Player::<I>::with_stock(world);
    player.add_pool();
    player.meets_goal()
}

#[tactic(auto, unfolding(crate::specs::Boards::board_of, crate::specs::Boards::atlas_of))]
impl<'w, I: Inventory> Board<'w, I> {
    // A board with nothing set and nothing in hand.
    pub fn make(world: &'w World) -> Result<Board<'w, I>, BoardRefusal>
        ensures { Made I.Inventory.meaning (world_of world.now) result }
    {
        let table = PlaceTable::for_world(world);
        if table.count() < world.pool().len() {
            return Err(BoardRefusal::TooManyItems);
        }
        if !can_meet_goal::<I>(world) {
            return Err(BoardRefusal::GoalUnmet);
        }
        Ok(Board {
            world,
            layout: Layout { table, hand: None },
            kind: PhantomData,
        })
    }
}
