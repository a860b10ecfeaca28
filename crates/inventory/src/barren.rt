// An inventory that meets nothing. It is lawful: that an inventory is of use, its definition says, not the laws.
ghost use Rattle.std.specs.Prelude.{◌≡◌};
ghost use Rattle.inventory.specs.Barren.{barren, barren_lawful};

use crate::Inventory;

#[derive(Clone, Copy)]
pub struct Barren;

impl Inventory for Barren {
    ghost meaning = { barren };

    ghost value = { λ s. tt };

    ghost lawful = { barren_lawful };

    fn empty() -> Barren {
        Barren
    }

    fn add(&mut self, _code: u16) {}

    fn holds(&self, _code: u16, _amount: u16) -> bool {
        false
    }
}
