// Lifting an item, putting it back, and taking one up again.
ghost use Rattle.std.specs.Prelude.{◌≡◌, ℕ, ◌<◌, Ok};
ghost use Rattle.model.specs.Boards.{lifted, put_back, taken_up, left_by, after_take_up};
ghost use Rattle.board.specs.Tokens.{lift_answer, back_answer};
ghost use Rattle.board.specs.Boards.{atlas_of, board_of, Left};

use super::Board;
use crate::token::Token;
use inventory::Inventory;
use model::BoardRefusal;

#[tactic(auto, unfolding(crate::specs::Boards::board_of, crate::specs::Boards::atlas_of))]
impl<'w, I: Inventory> Board<'w, I> {
    // Takes an item of the pool in hand; its token has to be set or put back.
    pub fn lift(&mut self, item: u16) -> Result<Token, BoardRefusal>
        ensures answer { result ≡ lift_answer item (lifted (atlas_of self.old) (board_of self.old) item) }
        ensures board { Left self.old (left_by (board_of self.old) (lifted (atlas_of self.old) (board_of self.old) item)) self.new }
    {
        if item as usize >= self.world.pool().len() {
            return Err(BoardRefusal::NoItem);
        }
        if self.layout.hand.is_some() {
            return Err(BoardRefusal::HandFull);
        }
        if self.is_set(item) {
            return Err(BoardRefusal::ItemSet);
        }
        self.layout.hand = Some(item);
        Ok(Token::new(item))
    }

    // Puts the token's item back; the token is spent even where the item is not in this board's hand.
    pub fn back(&mut self, token: Token) -> Result<(), BoardRefusal>
        ensures answer { result ≡ back_answer (put_back (board_of self.old) token.item) }
        ensures board { Left self.old (left_by (board_of self.old) (put_back (board_of self.old) token.item)) self.new }
    {
        let item = token.item();
        token.spend();
        if !self.holds(item) {
            return Err(BoardRefusal::NotInHand);
        }
        self.layout.hand = None;
        Ok(())
    }

    // Takes the item away that lies at a place, and answers its number.
    pub fn take_up(&mut self, place: u16) -> Result<u16, BoardRefusal>
        ensures answer { result ≡ taken_up (atlas_of self.old) (board_of self.old) place }
        ensures board { Left self.old (after_take_up (atlas_of self.old) (board_of self.old) place) self.new }
        ensures small { (i : ℕ) → result ≡ Ok i → i < 256 }
    {
        Ok(self.layout.table.take_up(place as usize)?)
    }
}
