// The attempts of a fill.
ghost use Rattle.world.specs.Worlds.{world_of};
ghost use Rattle.sheet.specs.Tables.{Sound};
ghost use Rattle.filling.specs.Filled.{Filled};

use crate::attempt::Attempt;
use crate::no_candidate::NoCandidate;
use draw::DrawSource;
use inventory::Inventory;
use scratch::{Places, Regions};
use sheet::PlaceTable;
use world::World;

// Sets every item that is not set, and answers which attempt did, counted from 1. Where each is left at an item
// without a candidate, the item of the last is answered, the table is as it was, and the source has spent its draws.
pub fn fill_places<I: Inventory, S: DrawSource>(
    world: &World,
    table: &mut PlaceTable,
    source: &mut S,
    attempts: u16,
    regions: &mut Regions,
    places: &mut Places,
) -> Result<u16, NoCandidate>
    ensures filled { Filled I.Inventory.meaning (world_of world.now) S.DrawSource.draws attempts (S.DrawSource.state source.old) table.old result (S.DrawSource.state source.new) table.new }
    ensures before { Sound table.old }
    ensures sound { Sound table.new }
{
    // Asked for its count, a table tells that it is sound: here as it was, and below as it is left.
    prove!(table.count() <= 256);
    let mut last = None;
    // The loops have labels by a rule of the project: an attempt is left, by name, at an item without a candidate.
    'attempts: for nth in 1..=attempts {
        let mut attempt = Attempt::begin(world, *table);
        'items: loop {
            if attempt.left.is_empty() {
                *table = attempt.table;
                prove!(table.count() <= 256);
                return Ok(nth);
            }
            // No `?`: the next attempt follows.
            if let Err(none) = attempt.set_one::<I, S>(source, regions, places) {
                last = Some(none);
                break 'items;
            }
        }
    }
    prove!(table.count() <= 256);
    // Where no attempt is to be made, the definition names item 0.
    Err(last.unwrap_or(NoCandidate { item: 0 }))
}
