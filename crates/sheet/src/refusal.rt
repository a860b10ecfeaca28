// Why a placement does not change, and why a file is not read or written.
ghost use Rattle.std.specs.Prelude.{◌≡◌};
ghost use Rattle.sheet.specs.Refusals.{board_refusal, load_number, write_number};

use model::BoardRefusal;

// Why a table of place records is left as it is. Numbers for these cases are a board's.
#[derive(Clone, Copy, PartialEq, Eq, Debug, thiserror::Error)]
pub enum PlaceRefusal {
    // a place that the table does not have
    #[error("there is no such place")]
    NoPlace,
    // an item lies at the place
    #[error("the place has an item")]
    PlaceTaken,
    // an item that no pool has
    #[error("no pool has such an item")]
    NoItem,
    // the item lies at another place
    #[error("the item lies at another place")]
    ItemSet,
    // no item lies at the place
    #[error("the place has no item")]
    PlaceEmpty,
}

// What a board says where its table refuses.
impl From<PlaceRefusal> for BoardRefusal {
    ghost from_gives = { λ why refusal. refusal ≡ board_refusal why };

    fn from(why: PlaceRefusal) -> BoardRefusal {
        match why {
            PlaceRefusal::NoPlace => BoardRefusal::NoPlace,
            PlaceRefusal::PlaceTaken => BoardRefusal::PlaceTaken,
            PlaceRefusal::NoItem => BoardRefusal::NoItem,
            PlaceRefusal::ItemSet => BoardRefusal::ItemSet,
            PlaceRefusal::PlaceEmpty => BoardRefusal::PlaceEmpty,
        }
    }
}

// Why a file is not loaded, in the order in which it is looked at.
#[derive(Clone, Copy, PartialEq, Eq, Debug, thiserror::Error)]
pub enum LoadRefusal {
    // too few bytes for a count, or not two for each place
    #[error("the file is too short or too long")]
    WrongLength = 13,
    // a count that is not the world's
    #[error("the world has another number of places")]
    WrongCount = 14,
    // an item that the pool does not have
    #[error("the pool has no such item")]
    OutsidePool = 16,
    // an item that an earlier place has
    #[error("an item lies at two places")]
    ItemTwice = 17,
}

impl LoadRefusal {
    // The refusal's number.
    pub fn number(self) -> u8
        ensures { result ≡ load_number self }
    {
        self as u8
    }
}

// Why a file is not written: the buffer has too few bytes.
#[derive(Clone, Copy, PartialEq, Eq, Debug, thiserror::Error)]
#[error("the buffer is too short for the file")]
pub struct ShortBuffer;

impl ShortBuffer {
    // The refusal's number.
    pub fn number(self) -> u8
        ensures { result ≡ write_number self }
    {
        18
    }
}
