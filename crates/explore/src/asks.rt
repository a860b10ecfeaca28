// Questions about a world, asked with lent marks: untouched where there are too few, else zero again when the answer is given.
// Each says so of the bytes that it was lent, by `after_call`: they are the caller's, and no type of its own can say it of them.
ghost use Rattle.std.specs.Prelude.{◌≡◌, length};
ghost use Rattle.model.specs.Marks.{at};
ghost use Rattle.model.specs.Worlds.{opens, finishable};
ghost use Rattle.model.specs.Placements.{gathered, sphere as sphere_of, whole as whole_of};
ghost use Rattle.scratch.specs.Lending.{after_call};
ghost use Rattle.world.specs.Worlds.{world_of};
ghost use Rattle.explore.specs.Asking.{asked};

use crate::marks::is_marked;
use crate::places::mark_finishable;
use crate::player::Player;
use crate::spheres::sphere;
use crate::whole::is_whole;
use inventory::Inventory;
use scratch::{FewMarks, Places, Regions, with_marks};
use world::World;

// Work that borrows the player has a name of its own: passed as written, it tells the check nothing of its answer.
impl<I: Inventory> Player<'_, I> {
    // Whether a place is open with what is held.
    pub fn ask_open(&self, place: usize, lent: &mut [u8]) -> Result<bool, FewMarks>
        ensures answer { result ≡ asked (length lent.old) (at (opens I.Inventory.meaning (world_of self.now.world.now) (I.Inventory.value self.now.held)) place) }
        ensures marks { lent.new ≡ after_call lent.old }
    {
        let work = |regions: &mut Regions, places: &mut Places| {
            self.mark_open(regions, places);
            is_marked(self.world, place, places)
        };
        with_marks(lent, work)
    }

    // Whether a place is gathered from what is held.
    pub fn ask_gathered(
        &self,
        placement: &[Option<u16>],
        place: usize,
        lent: &mut [u8],
    ) -> Result<bool, FewMarks>
        ensures answer { result ≡ asked (length lent.old) (at (gathered I.Inventory.meaning (world_of self.now.world.now) placement.now (I.Inventory.value self.now.held)) place) }
        ensures marks { lent.new ≡ after_call lent.old }
    {
        let work = |regions: &mut Regions, places: &mut Places| {
            self.mark_gathered(placement, regions, places);
            is_marked(self.world, place, places)
        };
        with_marks(lent, work)
    }
}

// Whether a place is open with the stock and the whole pool.
pub fn ask_finishable<I: Inventory>(
    world: &World,
    place: usize,
    lent: &mut [u8],
) -> Result<bool, FewMarks>
    ensures answer { result ≡ asked (length lent.old) (at (finishable I.Inventory.meaning (world_of world.now)) place) }
    ensures marks { lent.new ≡ after_call lent.old }
{
    with_marks(lent, |regions, places| {
        mark_finishable::<I>(world, regions, places);
        is_marked(world, place, places)
    })
}

// The sphere of a place, gathering from the stock.
pub fn ask_sphere<I: Inventory>(
    world: &World,
    placement: &[Option<u16>],
    place: usize,
    lent: &mut [u8],
) -> Result<Option<u16>, FewMarks>
    ensures answer { result ≡ asked (length lent.old) (sphere_of I.Inventory.meaning (world_of world.now) placement.now place) }
    ensures marks { lent.new ≡ after_call lent.old }
{
    with_marks(lent, |regions, places| {
        sphere::<I>(world, placement, place, regions, places)
    })
}

// Whether every item of the pool lies at a place gathered from the stock.
pub fn ask_whole<I: Inventory>(
    world: &World,
    placement: &[Option<u16>],
    lent: &mut [u8],
) -> Result<bool, FewMarks>
    ensures answer { result ≡ asked (length lent.old) (whole_of I.Inventory.meaning (world_of world.now) placement.now) }
    ensures marks { lent.new ≡ after_call lent.old }
{
    with_marks(
        lent,
        |regions, places| is_whole::<I>(world, placement, regions, places),
    )
}
