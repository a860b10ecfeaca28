// The families of a world's kinds, and the inventory that holds them.
ghost use Rattle.std.specs.Prelude.{◌≡◌, Some};
ghost use Rattle.inventory.specs.Families.{code_of};
ghost use Rattle.inventory.specs.FamilyNames.{name_of, ReadsFamily};

use crate::{Counts, Keys, Pair, Tiers};
use std::fmt;
use std::str::FromStr;
use thiserror::Error;

#[derive(Clone, Copy, PartialEq, Eq, Debug)]
pub enum Family {
    Key,
    Count,
    Tier,
}

// A name that is no family's.
#[derive(Clone, Copy, PartialEq, Eq, Debug, Error)]
#[error("the families are key, count and tier")]
pub struct NoSuchFamily;

// What a player of a world holds.
pub type WorldInventory = Pair<Keys, Pair<Counts, Tiers>>;

impl Family {
    // The code of the family's kind of this number.
    pub fn code(self, number: u8) -> u16
        ensures { result ≡ code_of self number }
    {
        let n = u16::from(number);
        match self {
            Family::Key => 2 * n,
            Family::Count => 4 * n + 1,
            Family::Tier => 4 * n + 3,
        }
    }
}

// Writes the family's name.
impl fmt::Display for Family {
    ghost output = { λ family. Some (name_of family) };

    fn fmt<W: fmt::Write>(&self, f: &mut fmt::Formatter<W>) -> fmt::Result {
        f.write_str(match self {
            Family::Key => "key",
            Family::Count => "count",
            Family::Tier => "tier",
        })
    }
}

// Reads a family's name.
impl FromStr for Family {
    type Err = NoSuchFamily;

    ghost from_str_gives = { ReadsFamily };

    fn from_str(name: &str) -> Result<Family, NoSuchFamily> {
        match name {
            "key" => Ok(Family::Key),
            "count" => Ok(Family::Count),
            "tier" => Ok(Family::Tier),
            _ => Err(NoSuchFamily),
        }
    }
}
