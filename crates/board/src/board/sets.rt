// Setting the item in hand at a place.
ghost use Rattle.std.specs.Prelude.{◌≡◌, ◌<◌, true, not, ◌&&◌, length, Some, None, slice_set};
ghost use Rattle.std.specs.Result.{result_err};
ghost use Rattle.scratch.specs.Lending.{work_marks, after_call};
ghost use Rattle.model.specs.Marks.{at};
ghost use Rattle.model.specs.Worlds.{stocked, with_items};
ghost use Rattle.model.specs.Placements.{item_at};
ghost use Rattle.model.specs.Boards.{no_item, is_item, is_set, loose, gathered_with, set_at, left_by};
ghost use Rattle.board.specs.Tokens.{set_answer, refusal_of};
ghost use Rattle.board.specs.Boards.{atlas_of, board_of, Left};

use super::Board;
use crate::token::{Refused, Token};
use explore::{Player, is_marked};
use inventory::Inventory;
use model::BoardRefusal;
use scratch::{Places, Regions, with_marks};

#[tactic(auto, unfolding(crate::specs::Boards::board_of, crate::specs::Boards::atlas_of))]
impl<'w, I: Inventory> Board<'w, I> {
    // Whether the item is neither set nor in hand.
    fn is_loose(&self, item: u16) -> bool
        ensures { result ≡ (not (is_set (board_of self.now).placement item) && not (is_item item (board_of self.now).hand)) }
    {
        !self.is_set(item) && !self.holds(item)
    }

    // A player who holds the stock and the loose items.
    fn with_loose(&self) -> Player<'w, I>
        ensures world { result.world ≡ self.now.world }
        ensures held { I.Inventory.value result.held ≡ with_items I.Inventory.meaning (atlas_of self.now) (stocked I.Inventory.meaning (atlas_of self.now)) (loose (atlas_of self.now) (board_of self.now)) }
    {
        let mut player = Player::with_stock(self.world);
        // Items go by their number. A `filter` here was tried: the check could not state its loop.
        for item in 0..self.world.pool().len() as u16 {
            if self.is_loose(item) {
                player.add_item(item);
            }
        }
        player
    }

    // Whether a place is gathered from the stock and the loose items.
    fn gathers(&self, place: u16, regions: &mut Regions, places: &mut Places) -> bool
        ensures { result ≡ at (gathered_with I.Inventory.meaning (atlas_of self.now) (board_of self.now).placement (loose (atlas_of self.now) (board_of self.now))) place }
    {
        self.with_loose()
            .mark_gathered(self.layout.table.placement(), regions, places);
        is_marked(self.world, place as usize, places)
    }

    // Whether the item can be set at the place, asked with marks of which there are enough.
    fn check_place(
        &self,
        item: u16,
        place: u16,
        regions: &mut Regions,
        places: &mut Places,
    ) -> Result<(), BoardRefusal>
        ensures { result_err result ≡ refusal_of (set_at I.Inventory.meaning (atlas_of self.now) (board_of self.now) item place work_marks) }
    {
        if !self.holds(item) {
            return Err(BoardRefusal::NotInHand);
        }
        if place as usize >= self.place_count() {
            return Err(BoardRefusal::NoPlace);
        }
        if self.item_at(place).is_some() {
            return Err(BoardRefusal::PlaceTaken);
        }
        if !self.gathers(place, regions, places) {
            return Err(BoardRefusal::NotGathered);
        }
        Ok(())
    }

    // Whether the item can be set at the place.
    fn check_set(&self, item: u16, place: u16, lent: &mut [u8]) -> Result<(), BoardRefusal>
        ensures answer { result_err result ≡ refusal_of (set_at I.Inventory.meaning (atlas_of self.now) (board_of self.now) item place (length lent.old)) }
        ensures marks { lent.new ≡ after_call lent.old }
    {
        // The closure has a name of its own: passed as written, it tells the check nothing of its answer.
        let check = |regions: &mut Regions, places: &mut Places| {
            self.check_place(item, place, regions, places)
        };
        with_marks(lent, check).unwrap_or(Err(BoardRefusal::FewMarks))
    }

    // Lays the item in hand down at an empty place.
    fn put(&mut self, item: u16, place: u16)
        requires hand { is_item item (board_of self.old).hand ≡ true }
        requires place { place < length (atlas_of self.old).places }
        requires empty { no_item (item_at (board_of self.old).placement place) ≡ true }
        ensures { Left self.old (record { placement = slice_set (board_of self.old).placement place (Some item); hand = None }) self.new }
    {
        self.layout.table.set(place as usize, item).unwrap();
        self.layout.hand = None;
    }

    // Sets the token's item at a place that the stock and the loose items gather. A refusal gives the token back.
    pub fn set(&mut self, token: Token, place: u16, marks: &mut [u8]) -> Result<(), Refused>
        ensures answer { result ≡ set_answer token (set_at I.Inventory.meaning (atlas_of self.old) (board_of self.old) token.item place (length marks.old)) }
        ensures board { Left self.old (left_by (board_of self.old) (set_at I.Inventory.meaning (atlas_of self.old) (board_of self.old) token.item place (length marks.old))) self.new }
        ensures marks { marks.new ≡ after_call marks.old }
    {
        let item = token.item();
        // No `?` here: the token has to go back with the refusal, and may be dropped on neither way.
        if let Err(why) = self.check_set(item, place, marks) {
            return Err(Refused { why, token });
        }
        self.put(item, place);
        token.spend();
        Ok(())
    }
}
