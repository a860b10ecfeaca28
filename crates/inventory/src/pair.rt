// Two inventories side by side: the left one has the even codes, the right one the odd codes.
ghost use Rattle.std.specs.Prelude.{◌≡◌};
ghost use Rattle.inventory.specs.Paired.{paired};
ghost use Rattle.inventory.specs.PairedLaws.{paired_lawful};

use crate::Inventory;

#[derive(Clone, Copy)]
pub struct Pair<L, R> {
    left: L,
    right: R,
}

impl<L: Inventory, R: Inventory> Pair<L, R> {
    pub fn left(&self) -> &L
        ensures { result.now ≡ self.now.left }
    {
        &self.left
    }

    pub fn right(&self) -> &R
        ensures { result.now ≡ self.now.right }
    {
        &self.right
    }
}

impl<L: Inventory, R: Inventory> Inventory for Pair<L, R> {
    ghost meaning = { paired L.Inventory.meaning R.Inventory.meaning };

    ghost value = { λ s. (L.Inventory.value s.left, R.Inventory.value s.right) };

    ghost lawful = { paired_lawful L.Inventory.lawful R.Inventory.lawful };

    fn empty() -> Pair<L, R> {
        Pair {
            left: L::empty(),
            right: R::empty(),
        }
    }

    fn add(&mut self, code: u16) {
        if code % 2 == 0 {
            self.left.add(code / 2);
        } else {
            self.right.add(code / 2);
        }
    }

    fn holds(&self, code: u16, amount: u16) -> bool {
        if code % 2 == 0 {
            self.left.holds(code / 2, amount)
        } else {
            self.right.holds(code / 2, amount)
        }
    }
}
