// What is gathered where the items that are left count as held.
ghost use Rattle.std.specs.Prelude.{◌≡◌};
ghost use Rattle.model.specs.Boards.{gathered_with};
ghost use Rattle.world.specs.Worlds.{world_of};
ghost use Rattle.explore.specs.Marked.{places_in};

use crate::attempt::Attempt;
use explore::Player;
use inventory::Inventory;
use scratch::{Places, Regions};

impl Attempt<'_> {
    // Marks the places gathered from the stock joined with the items that are left.
    pub(crate) fn gather<I: Inventory>(&self, regions: &mut Regions, places: &mut Places)
        ensures { places_in (world_of self.now.world.now) places.new ≡ gathered_with I.Inventory.meaning (world_of self.now.world.now) self.now.table self.now.left.items }
    {
        let mut player = Player::<I>::with_stock(self.world);
        for item in self.left.as_slice() {
            player.add_item(*item);
        }
        player.mark_gathered(self.table.placement(), regions, places);
    }
}
