// Why a run is not started, or a call on one is refused.
ghost use Rattle.std.specs.Prelude.{◌≡◌};
ghost use Rattle.model.specs.Refusals.{run_number};

use thiserror::Error;

#[derive(Clone, Copy, PartialEq, Eq, Debug, Error)]
pub enum RunRefusal {
    #[error("a call needs at least 320 work marks")]
    FewMarks = 19,
    #[error("the sheet has another number of places than the world")]
    OtherCount = 14,
    #[error("the sheet names an item that the pool does not have")]
    OutsidePool = 16,
    #[error("an item of the pool lies nowhere, or where the stock never leads")]
    NotWhole = 32,
    #[error("no run was started")]
    NotStarted = 34,
    #[error("the world has no such place")]
    NoPlace = 27,
    #[error("the place was taken before")]
    AlreadyTaken = 36,
    #[error("the place is closed")]
    Closed = 37,
}

impl RunRefusal {
    // The refusal's number.
    pub fn number(self) -> u8
        ensures { result ≡ run_number self }
    {
        self as u8
    }
}
