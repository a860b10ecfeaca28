// The refusal of a call that was lent too few work marks.
ghost use Rattle.std.specs.Prelude.{◌≡◌};
ghost use Rattle.scratch.specs.Refusal.{number_of};

use thiserror::Error;

#[derive(Clone, Copy, PartialEq, Eq, Debug, Error)]
#[error("a call needs at least 320 work marks")]
pub struct FewMarks;

impl FewMarks {
    // The refusal's number.
    pub fn number(self) -> u8
        ensures { result ≡ number_of self }
    {
        19
    }
}
