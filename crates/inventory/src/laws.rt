// What is shown of the inventories: each function's contract is a statement, and the function does nothing else.
ghost use Rattle.inventory.specs.Capped.{up_to};
ghost use Rattle.inventory.specs.Laws.{UnknownCodes, SplitCodes, FamilyCodes, Met, MeetsNothing};

use crate::Inventory;

// A code that an inventory does not know is worth nothing and is never met.
pub fn unknown_codes_count_for_nothing()
    ensures { UnknownCodes }
{}

// Each code of a pair is one side's, whichever inventories the sides are.
pub fn pairs_split_their_codes<L: Inventory, R: Inventory>()
    ensures { SplitCodes L.Inventory.meaning R.Inventory.meaning }
{}

// The kinds of a world are met by their own family alone.
pub fn kinds_are_their_familys_own()
    ensures { FamilyCodes }
{}

// Keys, counts and tiers meet what was added to them.
pub fn families_meet_what_they_hold()
    ensures counts { Met (up_to 999) }
    ensures tiers { Met (up_to 4) }
{}

// The laws alone ask nothing to be met.
pub fn meeting_nothing_is_lawful()
    ensures { MeetsNothing }
{}
