// Keys: a set of the codes 0 to 31.
ghost use Rattle.std.specs.Prelude.{◌≡◌};
ghost use Rattle.inventory.specs.Keyset.{keys, members, set_of};
ghost use Rattle.inventory.specs.KeysetLaws.{keys_lawful};

use crate::Inventory;

#[derive(Clone, Copy)]
pub struct Keys {
    has: [bool; 32],
}

impl Keys {
    // Whether the code is a member.
    pub fn contains(&self, code: u16) -> bool
        ensures { result ≡ set_of self.now.has code }
    {
        self.has
            .get(usize::from(code))
            .is_some_and(|member| *member)
    }

    // How many codes are members.
    pub fn count(&self) -> u16
        ensures { result ≡ members (set_of self.now.has) 32 }
    {
        self.has.iter().filter(|member| **member).count() as u16
    }
}

impl Inventory for Keys {
    ghost meaning = { keys };

    ghost value = { λ s. set_of s.has };

    ghost lawful = { keys_lawful };

    #[tactic(auto, using(crate::proofs::Repeated::no_keys))]
    fn empty() -> Keys {
        Keys { has: [false; 32] }
    }

    fn add(&mut self, code: u16) {
        let index = usize::from(code);
        // No `get_mut`: of an array it leaves a proof without the other elements.
        if index < self.has.len() {
            self.has[index] = true;
        }
    }

    fn holds(&self, code: u16, amount: u16) -> bool {
        amount == 1 && self.contains(code)
    }
}
