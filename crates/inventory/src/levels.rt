// A level for each of the codes 0 to 31, up to a top: counts and tiers.
ghost use Rattle.std.specs.Prelude.{◌≡◌, ℕ, ◌≤◌, slice_index};
ghost use Rattle.inventory.specs.Capped.{levels, up_to, levels_of, sum_of_levels};
ghost use Rattle.inventory.specs.CappedLaws.{levels_lawful};

use crate::Inventory;

// Keys are not levels up to 1: what keys mean is a set, and statements speak of it so; a table for both would be no plainer.
#[derive(Clone, Copy)]
pub struct Levels<const TOP: u16> {
    level: [u16; 32],
    ghost within: { (c : ℕ) → slice_index level c ≤ TOP },
}

// Items that add up: coins, arrows.
pub type Counts = Levels<999>;

// Items that improve: a sword, forged again.
pub type Tiers = Levels<4>;

impl<const TOP: u16> Levels<TOP> {
    // The code's level.
    pub fn level(&self, code: u16) -> u16
        ensures { result ≡ (levels_of TOP self.now.level code).0 }
    {
        self.level.get(usize::from(code)).copied().unwrap_or(0)
    }

    // All levels, added up.
    pub fn total(&self) -> u32
        ensures { result ≡ sum_of_levels (up_to TOP) (levels_of TOP self.now.level) 32 }
    {
        self.level.iter().copied().map(u32::from).sum()
    }
}

impl<const TOP: u16> Inventory for Levels<TOP> {
    ghost meaning = { levels (up_to TOP) };

    ghost value = { λ s. levels_of TOP s.level };

    ghost lawful = { levels_lawful (up_to TOP) };

    fn empty() -> Levels<TOP> {
        Levels { level: [0; 32] }
    }

    fn add(&mut self, code: u16) {
        let index = usize::from(code);
        // No `get_mut`: of an array it leaves a proof without the other elements.
        if index < self.level.len() && self.level[index] < TOP {
            self.level[index] += 1;
        }
    }

    fn holds(&self, code: u16, amount: u16) -> bool {
        amount > 0 && amount <= self.level(code)
    }
}
