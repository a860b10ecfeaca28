// A player in a world.
ghost use Rattle.std.specs.Prelude.{◌≡◌, [], ◌∷◌};
ghost use Rattle.inventory.specs.Meaning.{with_codes};
ghost use Rattle.model.specs.Worlds.{stocked, with_items, pool_items};
ghost use Rattle.world.specs.Worlds.{world_of};
ghost use Rattle.explore.specs.Gathering.{with_item};

use inventory::Inventory;
use world::World;

// A player is in a world, and holds what items amount to. Each method that changes a player says that the world stays:
// were only what is held lent, as to `add_codes`, world and value would be two parameters again.
#[derive(Clone, Copy)]
pub struct Player<'w, I> {
    pub world: &'w World,
    pub held: I,
}

// Joins an item of each code on.
fn add_codes<I: Inventory>(held: &mut I, codes: &[u16])
    ensures { I.Inventory.value held.new ≡ with_codes I.Inventory.meaning (I.Inventory.value held.old) codes.now }
{
    for code in codes {
        held.add(*code);
    }
}

impl<'w, I: Inventory> Player<'w, I> {
    // A player who holds the stock.
    pub fn with_stock(world: &'w World) -> Player<'w, I>
        ensures world { result.world ≡ world.entry }
        ensures held { I.Inventory.value result.held ≡ stocked I.Inventory.meaning (world_of world.now) }
    {
        let mut held = I::empty();
        add_codes(&mut held, world.stock());
        Player { world, held }
    }

    // Joins every item of the pool on.
    pub fn add_pool(&mut self)
        ensures world { self.new.world ≡ self.old.world }
        ensures held { I.Inventory.value self.new.held ≡ with_items I.Inventory.meaning (world_of self.old.world.now) (I.Inventory.value self.old.held) (pool_items (world_of self.old.world.now)) }
    {
        add_codes(&mut self.held, self.world.pool());
    }

    // Joins an item of the pool on; one that the pool does not have has code 0.
    pub fn add_item(&mut self, item: u16)
        ensures world { self.new.world ≡ self.old.world }
        ensures held { I.Inventory.value self.new.held ≡ with_items I.Inventory.meaning (world_of self.old.world.now) (I.Inventory.value self.old.held) (item ∷ []) }
    {
        let code = self
            .world
            .pool()
            .get(usize::from(item))
            .copied()
            .unwrap_or(0);
        self.held.add(code);
    }

    // Joins the item on that lies at a place, if one does.
    pub(crate) fn add_lying(&mut self, lies: Option<u16>)
        ensures world { self.new.world ≡ self.old.world }
        ensures held { I.Inventory.value self.new.held ≡ with_item I.Inventory.meaning (world_of self.old.world.now) (I.Inventory.value self.old.held) lies }
    {
        if let Some(item) = lies {
            self.add_item(item);
        }
    }
}
