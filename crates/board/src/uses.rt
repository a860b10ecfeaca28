// How a board is used: a token is spent on every way.
ghost use Rattle.std.specs.Prelude.{◌≡◌, length};
ghost use Rattle.scratch.specs.Lending.{after_call};
ghost use Rattle.model.specs.Boards.{lifted, set_at};
ghost use Rattle.board.specs.Tokens.{back_answer};
ghost use Rattle.board.specs.Boards.{atlas_of, board_of, Left};
ghost use Rattle.board.specs.Uses.{or_back};

use crate::board::Board;
use crate::token::{Refused, Token};
use inventory::Inventory;
use model::BoardRefusal;

// Whether an item can be lifted. It is put back, so the board stays as it was.
pub fn try_lift<I: Inventory>(board: &mut Board<I>, item: u16) -> Result<(), BoardRefusal>
    ensures answer { result ≡ back_answer (lifted (atlas_of board.old) (board_of board.old) item) }
    ensures board { Left board.old (board_of board.old) board.new }
{
    let token = board.lift(item)?;
    board.back(token)
}

// Sets a token's item at a place, or else puts it back.
pub fn set_or_back<I: Inventory>(
    board: &mut Board<I>,
    token: Token,
    place: u16,
    marks: &mut [u8],
) -> Result<(), BoardRefusal>
    ensures answer { result ≡ back_answer (set_at I.Inventory.meaning (atlas_of board.old) (board_of board.old) token.item place (length marks.old)) }
    ensures board { Left board.old (or_back (board_of board.old) token.item (set_at I.Inventory.meaning (atlas_of board.old) (board_of board.old) token.item place (length marks.old))) board.new }
    ensures marks { marks.new ≡ after_call marks.old }
{
    // By `map_err` it was tried: what the closure leaves of the board that it borrows was not proved.
    match board.set(token, place, marks) {
        Ok(()) => Ok(()),
        Err(Refused { why, token }) => {
            let _ = board.back(token);
            Err(why)
        }
    }
}
