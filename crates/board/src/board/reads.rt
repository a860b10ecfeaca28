// Reading a board.
ghost use Rattle.std.specs.Prelude.{◌≡◌, ℕ, ◌<◌, length, Some};
ghost use Rattle.world.specs.Worlds.{world_of};
ghost use Rattle.model.specs.Placements.{item_at};
ghost use Rattle.model.specs.Boards.{is_item, is_set};
ghost use Rattle.sheet.specs.Tables.{Sound};
ghost use Rattle.board.specs.Boards.{atlas_of, board_of};

use super::Board;
use inventory::Inventory;
use sheet::Sheet;
use world::World;

#[tactic(auto, unfolding(crate::specs::Boards::board_of, crate::specs::Boards::atlas_of))]
impl<'w, I: Inventory> Board<'w, I> {
    // The world that the board is of.
    pub fn world(&self) -> &'w World
        ensures { world_of result.now ≡ atlas_of self.now }
    {
        self.world
    }

    // The item in hand.
    pub fn hand(&self) -> Option<u16>
        ensures { result ≡ (board_of self.now).hand }
    {
        self.layout.hand
    }

    // What lies at a place; nothing where there is no such place.
    pub fn item_at(&self, place: u16) -> Option<u16>
        ensures item { result ≡ item_at (board_of self.now).placement place }
        ensures small { (i : ℕ) → result ≡ Some i → i < 256 }
    {
        self.layout.table.item_at(place as usize)
    }

    // A copy of the placement; the board goes on without it.
    pub fn sheet(&self) -> Sheet
        ensures table { result.table ≡ (board_of self.now).placement }
        ensures sound { Sound result.table }
    {
        Sheet {
            table: self.layout.table,
        }
    }

    // How many places there are.
    pub(super) fn place_count(&self) -> usize
        ensures { result ≡ length (atlas_of self.now).places }
    {
        self.layout.table.count()
    }

    // Whether the item is in hand.
    pub(super) fn holds(&self, item: u16) -> bool
        ensures { result ≡ is_item item (board_of self.now).hand }
    {
        self.layout.hand == Some(item)
    }

    // Whether the item lies at some place.
    pub(super) fn is_set(&self, item: u16) -> bool
        ensures { result ≡ is_set (board_of self.now).placement item }
    {
        self.layout.table.is_set(item)
    }
}
