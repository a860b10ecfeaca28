// Making a draft, row by row; what is refused leaves it as it was.
ghost use Rattle.std.specs.Prelude.{◌≡◌, T, [], ◌∷◌, ◌++◌, length, nat_lt, IfOk, OnOk, OnErr};
ghost use Rattle.model.specs.Marks.{every};
ghost use Rattle.model.specs.Proper.{of_kinds};
ghost use Rattle.world.specs.Listed.{listed};
ghost use Rattle.world.specs.Building.{item_refusal, nothing, told, numbered, left, new_code, with_region, with_kind, with_item, with_stock, with_gate, with_place, with_goal, region_refusal, kind_refusal, pool_refusal, stock_refusal, gate_refusal, place_refusal, goal_refusal};
ghost use Rattle.world.specs.Worlds.{draft_of};

use super::Draft;
use crate::refusal::BuildRefusal;
use crate::table::Table;
use inventory::Family;
use model::RuleWord;
use std::alloc::{AllocError, Global};

// Takes an item into a list of items, where the world has its kind and the list has room.
fn take_in<const MAX: usize>(
    kinds: &Table<u16, 64>,
    list: &mut Table<u16, MAX>,
    code: u16,
) -> Result<(), BuildRefusal>
    ensures answer { result ≡ told (item_refusal (listed kinds.now) (nat_lt (length (listed list.old)) MAX) code) }
    ensures taken { OnOk result (listed list.new ≡ listed list.old ++ code ∷ []) }
    ensures kept { OnErr result (list.new ≡ list.old) }
    ensures known { T (every (of_kinds (listed kinds.now)) (listed list.old)) → T (every (of_kinds (listed kinds.now)) (listed list.new)) }
{
    if !kinds.as_slice().contains(&code) {
        return Err(BuildRefusal::NoKind);
    }
    list.push(code)?;
    Ok(())
}

#[tactic(auto, unfolding(crate::specs::Worlds::draft_of))]
impl Draft {
    // Nothing made yet; all memory that a world may need is asked for here.
    pub fn new(heap: Global) -> Result<Draft, AllocError>
        ensures { IfOk result (λ d. draft_of d ≡ nothing) }
    {
        Ok(Draft {
            kinds: Table::new(heap)?,
            gates: Table::new(heap)?,
            latest: Table::new(heap)?,
            places: Table::new(heap)?,
            words: Table::new(heap)?,
            pool: Table::new(heap)?,
            stock: Table::new(heap)?,
            goal: None,
        })
    }

    // Nothing made yet, again.
    pub fn clear(&mut self)
        ensures { draft_of self.new ≡ nothing }
    {
        self.kinds.clear();
        self.gates.clear();
        self.latest.clear();
        self.places.clear();
        self.words.clear();
        self.pool.clear();
        self.stock.clear();
        self.goal = None;
    }

    // One region more; answers its number.
    pub fn add_region(&mut self) -> Result<u8, BuildRefusal>
        ensures answer { result ≡ numbered (region_refusal (draft_of self.old)) (draft_of self.old).regions }
        ensures draft { draft_of self.new ≡ left (region_refusal (draft_of self.old)) (with_region (draft_of self.old)) (draft_of self.old) }
    {
        let region = self.region_count();
        self.latest.push(None)?;
        Ok(region)
    }

    // One kind more of a family; answers its code.
    pub fn add_kind(&mut self, family: Family) -> Result<u16, BuildRefusal>
        ensures answer { result ≡ numbered (kind_refusal (draft_of self.old) family) (new_code (draft_of self.old) family) }
        ensures draft { draft_of self.new ≡ left (kind_refusal (draft_of self.old) family) (with_kind (draft_of self.old) (new_code (draft_of self.old) family)) (draft_of self.old) }
    {
        let number = self.kinds_of(family);
        if number >= 32 {
            return Err(BuildRefusal::Full);
        }
        let code = family.code(number);
        self.kinds.push(code)?;
        Ok(code)
    }

    // One item more in the pool.
    pub fn add_item(&mut self, code: u16) -> Result<(), BuildRefusal>
        ensures answer { result ≡ told (pool_refusal (draft_of self.old) code) }
        ensures draft { draft_of self.new ≡ left (pool_refusal (draft_of self.old) code) (with_item (draft_of self.old) code) (draft_of self.old) }
    {
        take_in(&self.kinds, &mut self.pool, code)
    }

    // One item more in the stock.
    pub fn add_stock(&mut self, code: u16) -> Result<(), BuildRefusal>
        ensures answer { result ≡ told (stock_refusal (draft_of self.old) code) }
        ensures draft { draft_of self.new ≡ left (stock_refusal (draft_of self.old) code) (with_stock (draft_of self.old) code) (draft_of self.old) }
    {
        take_in(&self.kinds, &mut self.stock, code)
    }

    // One gate more. Its parts come one by one: a struct would be made only to be taken apart.
    pub fn add_gate(&mut self, near: u8, far: u8, rule: &[RuleWord]) -> Result<(), BuildRefusal>
        ensures answer { result ≡ told (gate_refusal (draft_of self.old) near far rule.now) }
        ensures draft { draft_of self.new ≡ left (gate_refusal (draft_of self.old) near far rule.now) (with_gate (draft_of self.old) (record { near = near; far = far; rule = rule.now })) (draft_of self.old) }
    {
        self.check_gate(near, far, rule)?;
        self.put_gate(near, far, rule);
        Ok(())
    }

    // One place more.
    pub fn add_place(&mut self, region: u8, rule: &[RuleWord]) -> Result<(), BuildRefusal>
        ensures answer { result ≡ told (place_refusal (draft_of self.old) region rule.now) }
        ensures draft { draft_of self.new ≡ left (place_refusal (draft_of self.old) region rule.now) (with_place (draft_of self.old) (record { region = region; rule = rule.now })) (draft_of self.old) }
    {
        self.check_place(region, rule)?;
        self.put_place(region, rule);
        Ok(())
    }

    // Sets the goal, which can be done once.
    pub fn set_goal(&mut self, rule: &[RuleWord]) -> Result<(), BuildRefusal>
        ensures answer { result ≡ told (goal_refusal (draft_of self.old) rule.now) }
        ensures draft { draft_of self.new ≡ left (goal_refusal (draft_of self.old) rule.now) (with_goal (draft_of self.old) rule.now) (draft_of self.old) }
    {
        self.check_goal(rule)?;
        self.put_goal(rule);
        Ok(())
    }
}
