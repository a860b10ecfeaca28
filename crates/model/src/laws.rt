// What is shown of worlds: each function's contract is a statement, and the function does nothing else.
ghost use Rattle.model.specs.Laws.{RuleLaws, ProperLaws, ReachLaws, GatherLaws, GrowthLaws, SphereLaws, WholeLaws, TableLaws};

use inventory::Inventory;

// A well formed rule leaves one answer, and a joiner joins the answers of the two rules before it.
pub fn rules_answer_once<I: Inventory>()
    ensures { RuleLaws I.Inventory.meaning }
{}

// A world passes its test exactly if it keeps every limit, as a new one does.
pub fn proper_worlds_keep_the_limits()
    ensures { ProperLaws }
{}

// The reached regions are the least set that has region 0 and that no passable gate leaves.
pub fn reached_regions_are_least<I: Inventory>()
    ensures { ReachLaws I.Inventory.meaning }
{}

// The gathered places are the least set that has all that opens with what lies in it, and the rounds settle there.
pub fn gathered_places_are_least<I: Inventory>()
    ensures { GatherLaws I.Inventory.meaning }
{}

// More items never close a rule, a region or a place.
pub fn more_items_close_nothing<I: Inventory>()
    ensures { GrowthLaws I.Inventory.meaning }
{}

// A place's sphere is the first round that gathers it.
pub fn spheres_are_first_rounds<I: Inventory>()
    ensures { SphereLaws I.Inventory.meaning }
{}

// With a whole placement, a player who gathers from the stock ends with every place that can be finished.
pub fn whole_placements_can_be_finished<I: Inventory>()
    ensures { WholeLaws I.Inventory.meaning }
{}

// There is an answer for each region and each place, and a place is open where its region is reached and its rule met.
pub fn each_place_has_its_answer<I: Inventory>()
    ensures { TableLaws I.Inventory.meaning }
{}
