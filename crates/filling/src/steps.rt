// One item of an attempt: it is drawn, and then a candidate for it.
ghost use Rattle.std.specs.Prelude.{◌≡◌, ◌<◌, ◌≤◌, true, false, length, Some, MatchResult, slice_set, insert};
ghost use Rattle.model.specs.Placements.{item_at};
ghost use Rattle.model.specs.Boards.{no_item, is_set};
ghost use Rattle.world.specs.Worlds.{world_of};
ghost use Rattle.filling.specs.Steps.{picked, others as rest, SetOne, SetNone};

use crate::attempt::Attempt;
use crate::no_candidate::NoCandidate;
use arrayvec::ArrayVec;
use draw::{DrawSource, Drawn};
use inventory::Inventory;
use scratch::{Places, Regions};
use sheet::PlaceTable;

// Draws one of a list and takes it out; the others keep their order. It is the dealing of a list of fixed room, of which
// there is one at least: the library has no trait for taking out of both kinds of list.
fn pick<S: DrawSource>(source: &mut S, left: &mut ArrayVec<u16, 256>) -> Drawn<u16>
    requires { 0 < length left.old.items }
    ensures few { length left.new.items < 256 }
    ensures index { result.index ≤ length left.new.items }
    ensures back { insert left.new.items result.index result.item ≡ left.old.items }
    ensures item { result.item ≡ picked S.DrawSource.draws (S.DrawSource.state source.old) left.old.items }
    ensures others { left.new.items ≡ rest S.DrawSource.draws (S.DrawSource.state source.old) left.old.items }
    ensures state { S.DrawSource.state source.new ≡ S.DrawSource.draws.after (S.DrawSource.state source.old) (length left.old.items) }
{
    let index = source.draw(left.len() as u16);
    let item = left.remove(index as usize);
    Drawn { index, item }
}

// Sets an item that lies nowhere. A table of another world may not have the place: then the item lies nowhere still.
fn lay(table: &mut PlaceTable, place: usize, item: u16)
    requires empty { no_item (item_at table.old place) ≡ true }
    requires small { item < 256 }
    requires unset { is_set table.old item ≡ false }
    ensures { table.new ≡ slice_set table.old place (Some item) }
{
    let _ = table.set(place, item);
}

impl Attempt<'_> {
    // Sets one item; the others that are left count as held meanwhile.
    pub(crate) fn set_one<I: Inventory, S: DrawSource>(
        &mut self,
        source: &mut S,
        regions: &mut Regions,
        places: &mut Places,
    ) -> Result<(), NoCandidate>
        requires some { 0 < length self.old.left.items }
        ensures step { MatchResult result (λ _. SetOne I.Inventory.meaning (world_of self.old.world.now) S.DrawSource.draws (S.DrawSource.state source.old) self.old.table self.old.left.items (S.DrawSource.state source.new) self.new.table self.new.left.items) (λ e. SetNone I.Inventory.meaning (world_of self.old.world.now) S.DrawSource.draws (S.DrawSource.state source.old) self.old.table self.old.left.items (S.DrawSource.state source.new) self.new.table self.new.left.items e.item) }
        ensures world { self.new.world ≡ self.old.world }
    {
        let Drawn { index, item } = pick(source, &mut self.left);
        let mut found = self.candidates::<I>(regions, places);
        if found.is_empty() {
            self.left.insert(index as usize, item);
            return Err(NoCandidate { item });
        }
        let place = pick(source, &mut found).item;
        lay(&mut self.table, place as usize, item);
        Ok(())
    }
}
