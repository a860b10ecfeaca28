// Why no source is made.
ghost use Rattle.std.specs.Prelude.{◌≡◌};
ghost use Rattle.draw.specs.Refusals.{number_of};

use thiserror::Error;

#[derive(Clone, Copy, PartialEq, Eq, Debug, Error)]
pub enum BadSource {
    #[error("a seed is at least 1")]
    ZeroSeed,
    #[error("a tape has at most 512 numbers")]
    LongTape,
}

impl BadSource {
    // The refusal's number, one for both, so it cannot be the variant's own.
    pub fn number(self) -> u8
        ensures { result ≡ number_of self }
    {
        match self {
            BadSource::ZeroSeed | BadSource::LongTape => 38,
        }
    }
}
