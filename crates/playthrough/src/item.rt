// An item: one of a kind, by the kind's family and its number there.
ghost use Rattle.std.specs.Prelude.{◌<◌};

use crate::fault::What;
use crate::number::number;
use inventory::Family;
use std::fmt;
use std::str::FromStr;

#[derive(Clone, Copy, PartialEq, Eq, Debug)]
pub struct Item {
    pub family: Family,
    pub number: u8,
    ghost known: { number < 32 },
}

// By hand, since it is a value's text and no refusal's, which no derive writes.
impl fmt::Display for Item {
    fn fmt<W: fmt::Write>(&self, f: &mut fmt::Formatter<W>) -> fmt::Result {
        write!(f, "{} {}", self.family, self.number)
    }
}

impl FromStr for Item {
    type Err = What;

    fn from_str(line: &str) -> Result<Item, What> {
        let (name, word) = line.split_once(' ').ok_or(What::NotAnItem)?;
        let family = name.parse()?;
        let number: u64 = number(word)?;
        let number = u8::try_from(number)
            .ok()
            .filter(|n| *n < 32)
            .ok_or(What::NoSuchKind)?;
        Ok(Item { family, number })
    }
}
