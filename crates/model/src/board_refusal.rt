// Why no board is made, or a call on one is refused.
ghost use Rattle.std.specs.Prelude.{◌≡◌};
ghost use Rattle.model.specs.Refusals.{board_number};

use thiserror::Error;

#[derive(Clone, Copy, PartialEq, Eq, Debug, Error)]
pub enum BoardRefusal {
    #[error("a call needs at least 320 work marks")]
    FewMarks,
    #[error("the pool has more items than there are places")]
    TooManyItems,
    #[error("the stock and the whole pool do not meet the goal")]
    GoalUnmet,
    #[error("the pool has no such item")]
    NoItem,
    #[error("an item is in hand")]
    HandFull,
    #[error("the item lies at a place")]
    ItemSet,
    #[error("in the last attempt no place was left for item {item}")]
    NoCandidate { item: u16 },
    #[error("the item is not in this board's hand")]
    NotInHand,
    #[error("the world has no such place")]
    NoPlace,
    #[error("an item lies at the place")]
    PlaceTaken,
    #[error("the place is not gathered without the item")]
    NotGathered,
    #[error("no item lies at the place")]
    PlaceEmpty,
    #[error("a fill makes 1 to 64 attempts")]
    BadAttempts,
}

impl BoardRefusal {
    // The refusal's number: by a `match`, since of an enum that has a field there is no `as u8`.
    pub fn number(self) -> u8
        ensures { result ≡ board_number self }
    {
        match self {
            BoardRefusal::FewMarks => 19,
            BoardRefusal::TooManyItems => 20,
            BoardRefusal::GoalUnmet => 21,
            BoardRefusal::NoItem => 22,
            BoardRefusal::HandFull => 23,
            BoardRefusal::ItemSet => 24,
            BoardRefusal::NoCandidate { .. } => 25,
            BoardRefusal::NotInHand => 26,
            BoardRefusal::NoPlace => 27,
            BoardRefusal::PlaceTaken => 28,
            BoardRefusal::NotGathered => 29,
            BoardRefusal::PlaceEmpty => 30,
            BoardRefusal::BadAttempts => 31,
        }
    }
}
