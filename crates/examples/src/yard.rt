// The example world: a yard with a well and a shed, and a cave with a vault.
ghost use Rattle.std.specs.Prelude.{◌≡◌, [], ◌∷◌, IfOk};
ghost use Rattle.model.specs.Example.{shed, well, world_a};
ghost use Rattle.world.specs.Building.{nothing};
ghost use Rattle.world.specs.Worlds.{draft_of, world_of};

use inventory::Family;
use model::RuleWord;
use std::alloc::{AllocError, Global};
use world::{Draft, World};

const FREE: RuleWord = RuleWord::Free;

const OR: RuleWord = RuleWord::Or;

const AND: RuleWord = RuleWord::And;

const LAMP: RuleWord = RuleWord::Need { code: 0, amount: 1 };

const COIN: RuleWord = RuleWord::Need { code: 1, amount: 1 };

const TWO_COINS: RuleWord = RuleWord::Need { code: 1, amount: 2 };

const SWORD: RuleWord = RuleWord::Need { code: 3, amount: 1 };

// The kinds and the regions.
fn draw_regions(draft: &mut Draft)
    requires { draft_of draft.old ≡ nothing }
    ensures { draft_of draft.new ≡ record world_a { gates = []; places = []; pool = []; goal = [] } }
{
    draft.add_kind(Family::Key).unwrap();
    draft.add_kind(Family::Count).unwrap();
    draft.add_kind(Family::Tier).unwrap();
    draft.add_region().unwrap();
    draft.add_region().unwrap();
}

// The places of the yard.
fn draw_yard(draft: &mut Draft)
    requires { draft_of draft.old ≡ record world_a { gates = []; places = []; pool = []; goal = [] } }
    ensures { draft_of draft.new ≡ record world_a { gates = []; places = well ∷ shed ∷ []; pool = []; goal = [] } }
{
    draft.add_place(0, &[FREE]).unwrap();
    draft.add_place(0, &[COIN]).unwrap();
}

// The gate to the cave, and the place there.
fn draw_cave(draft: &mut Draft)
    requires { draft_of draft.old ≡ record world_a { gates = []; places = well ∷ shed ∷ []; pool = []; goal = [] } }
    ensures { draft_of draft.new ≡ record world_a { pool = []; goal = [] } }
{
    draft.add_gate(0, 1, &[LAMP]).unwrap();
    draft.add_place(1, &[COIN, SWORD, OR]).unwrap();
}

// The items of the pool.
fn draw_items(draft: &mut Draft)
    requires { draft_of draft.old ≡ record world_a { pool = []; goal = [] } }
    ensures { draft_of draft.new ≡ record world_a { goal = [] } }
{
    draft.add_item(0).unwrap();
    draft.add_item(1).unwrap();
    draft.add_item(1).unwrap();
}

fn draw_up(draft: &mut Draft)
    requires { draft_of draft.old ≡ nothing }
    ensures { draft_of draft.new ≡ world_a }
{
    draw_regions(draft);
    draw_yard(draft);
    draw_cave(draft);
    draw_items(draft);
    draft.set_goal(&[LAMP, TWO_COINS, AND]).unwrap();
}

// A record of the example world.
pub fn world_a(heap: Global) -> Result<World, AllocError>
    ensures { IfOk result (λ w. world_of w ≡ world_a) }
{
    let mut draft = Draft::new(heap)?;
    let mut world = World::new(heap)?;
    draw_up(&mut draft);
    world.adopt(&mut draft).unwrap();
    Ok(world)
}
