// Inventories: what a player's items amount to.
#![tactic(auto)]

mod barren;
mod family;
mod keys;
mod laws;
mod levels;
mod pair;

ghost use Rattle.std.specs.Prelude.{◌≡◌};
ghost use Rattle.inventory.specs.Meaning.{Meaning, Lawful, held};

pub use barren::Barren;
pub use family::{Family, NoSuchFamily, WorldInventory};
pub use keys::Keys;
pub use laws::{
    families_meet_what_they_hold, kinds_are_their_familys_own, meeting_nothing_is_lawful,
    pairs_split_their_codes, unknown_codes_count_for_nothing,
};
pub use levels::{Counts, Levels, Tiers};
pub use pair::Pair;

// An inventory, known by its meaning; no function of it refuses.
pub trait Inventory: Copy {
    // The values, their joining and order, what an item of a code is worth, and what a value meets.
    ghost meaning: { Meaning };

    // The value that is held.
    ghost value: { Self → meaning.Value };

    // The eight laws, which each inventory shows.
    ghost lawful: { Lawful meaning };

    // Nothing held.
    fn empty() -> Self
        ensures { value result ≡ meaning.neutral };

    // One item of the code more.
    fn add(&mut self, code: u16)
        ensures { value self.new ≡ meaning.join (value self.old) (meaning.grain code) };

    // Whether the amount of the code is held; amount 0 is not.
    fn holds(&self, code: u16, amount: u16) -> bool
        ensures { result ≡ held meaning (value self.now) code amount };
}
