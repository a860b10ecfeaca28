// A world in the making: tables that fit together, with room for every limit.
ghost use Rattle.std.specs.Prelude.{◌≡◌, ℕ, ◌<◌, ◌≤◌, T, None, length, count_by, slice_index_or};
ghost use Rattle.inventory.specs.declared.family.Family.{Family};
ghost use Rattle.model.specs.Marks.{every};
ghost use Rattle.model.specs.Proper.{of_family, of_kinds};
ghost use Rattle.world.specs.Listed.{listed};
ghost use Rattle.world.specs.Rows.{gate_sound, place_sound, goal_sound, words_of, earlier_at, near_at, last_leaving};

use crate::rows::{Gate, Part, Place};
use crate::table::Table;
use model::RuleWord;

mod checks;
mod makes;
mod puts;
mod reads;

#[derive(Drop)]
pub struct Draft {
    kinds: Table<u16, 64>,
    gates: Table<Gate, 256>,
    // for each region the index of the last gate that leaves it, and so a row for each region;
    // all memory is asked for once, so rows know each other by index
    latest: Table<Option<u16>, 64>,
    places: Table<Place, 256>,
    words: Table<RuleWord, 4096>,
    pool: Table<u16, 256>,
    stock: Table<u16, 32>,
    goal: Option<Part>,
    ghost few_of_each: { (family : Family) → count_by (of_family family) (listed kinds) ≤ 32 },
    ghost counted: { words_of (listed gates) (listed places) goal ≡ length (listed words) },
    ghost gates_lead: { T (every (gate_sound (length (listed latest)) (listed kinds) (listed words)) (listed gates)) },
    ghost places_lie: { T (every (place_sound (length (listed latest)) (listed kinds) (listed words)) (listed places)) },
    ghost goal_kept: { T (goal_sound (listed kinds) (listed words) goal) },
    ghost pool_known: { T (every (of_kinds (listed kinds)) (listed pool)) },
    ghost stock_known: { T (every (of_kinds (listed kinds)) (listed stock)) },
    ghost chains_start: { (r : ℕ) → r < length (listed latest) → slice_index_or (listed latest) r None ≡ last_leaving (listed gates) r (length (listed gates)) },
    ghost chains_go_on: { (k : ℕ) → k < length (listed gates) → earlier_at (listed gates) k ≡ last_leaving (listed gates) (near_at (listed gates) k) k },
}
