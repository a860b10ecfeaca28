// Making a world.
ghost use Rattle.std.specs.Prelude.{◌≡◌, IfOk, is_ok, if◌then◌else◌};
ghost use Rattle.model.specs.Worlds.{new_world};
ghost use Rattle.world.specs.Building.{nothing, complete};
ghost use Rattle.world.specs.Worlds.{draft_of, world_of};

use super::World;
use crate::draft::Draft;
use crate::refusal::Incomplete;
use model::RuleWord;
use std::alloc::{AllocError, Global};

impl World {
    // One region, and a goal that is met at once; all memory that a world may need is asked for here.
    #[tactic(auto, unfolding(crate::specs::Worlds::draft_of, crate::specs::Worlds::world_of))]
    pub fn new(heap: Global) -> Result<World, AllocError>
        ensures { IfOk result (λ w. world_of w ≡ new_world) }
    {
        let mut made = Draft::new(heap)?;
        made.add_region().unwrap();
        made.set_goal(&[RuleWord::Free]).unwrap();
        Ok(World { made })
    }

    // Becomes what the draft stands for, and empties the draft; nothing changes where the draft is not complete.
    #[tactic(auto, unfolding(crate::specs::Worlds::world_of))]
    pub fn adopt(&mut self, draft: &mut Draft) -> Result<(), Incomplete>
        ensures answer { is_ok result ≡ complete (draft_of draft.old) }
        ensures world { world_of self.new ≡ (if is_ok result then draft_of draft.old else world_of self.old) }
        ensures draft { draft_of draft.new ≡ (if is_ok result then nothing else draft_of draft.old) }
    {
        if !draft.is_complete() {
            return Err(Incomplete);
        }
        std::mem::swap(&mut self.made, draft);
        draft.clear();
        Ok(())
    }
}
