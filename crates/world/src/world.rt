// A world: a draft with a region at least and a goal.
ghost use Rattle.std.specs.Prelude.{◌≤◌, length, IsSome};
ghost use Rattle.world.specs.Listed.{listed};

use crate::draft::Draft;

mod makes;
mod reads;

#[derive(Drop)]
pub struct World {
    made: Draft,
    ghost some_region: { 1 ≤ length (listed made.latest) },
    ghost goal_set: { IsSome made.goal },
}
