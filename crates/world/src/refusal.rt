// Why a row is not taken into a world, and why a draft does not become one.
ghost use Rattle.std.specs.Prelude.{◌≡◌};
ghost use Rattle.world.specs.declared.refusal.BuildRefusal.TheVariants.{Full};

use crate::table::Full;
use thiserror::Error;

#[derive(Clone, Copy, PartialEq, Eq, Debug, Error)]
pub enum BuildRefusal {
    // a region that the world does not have
    #[error("the world has no such region")]
    NoRegion,
    // a rule that does not come to one answer, or has more than eight wait
    #[error("the rule is not well formed")]
    IllFormed,
    // a kind that the world does not have
    #[error("the world has no such kind")]
    NoKind,
    // a table, a rule or the table of words is full
    #[error("there is no room for it")]
    Full,
    // the goal is set already
    #[error("the goal is set already")]
    GoalSet,
}

impl From<Full> for BuildRefusal {
    ghost from_gives = { λ _ e. e ≡ Full };

    fn from(_: Full) -> BuildRefusal {
        BuildRefusal::Full
    }
}

// The draft has no region or no goal.
#[derive(Clone, Copy, PartialEq, Eq, Debug, Error)]
#[error("the draft has no region or no goal")]
pub struct Incomplete;
