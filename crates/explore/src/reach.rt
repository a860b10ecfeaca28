// Which regions are reached with what a player holds.
ghost use Rattle.std.specs.Prelude.{◌≡◌, ◌≤◌, true, [], ◌∷◌, length, if◌then◌else◌, slice_set};
ghost use Rattle.std.specs.List.{AllByRecursion};
ghost use Rattle.inventory.specs.Meaning.{held};
ghost use Rattle.scratch.specs.Held.{held as stacked};
ghost use Rattle.scratch.specs.Marks.{region_marks};
ghost use Rattle.model.specs.Marks.{count};
ghost use Rattle.model.specs.Worlds.{reached};
ghost use Rattle.world.specs.Worlds.{world_of, rule_at, KnownGate};
ghost use Rattle.explore.specs.Marked.{regions_in};
ghost use Rattle.explore.specs.Reaching.{leads, Settled, Left, Widens, Spread};

use crate::player::Player;
use crate::waiting::Waiting;
use inventory::Inventory;
use scratch::{Marks, Regions};
use world::Gate;

impl<I: Inventory> Player<'_, I> {
    // Whether the near region is marked, the far one is not, and what is held meets the rule.
    fn leads_on(&self, gate: Gate, regions: &Regions) -> bool
        requires { KnownGate self.now.world.now gate }
        ensures { result ≡ leads (held I.Inventory.meaning (I.Inventory.value self.now.held)) gate.near gate.far (rule_at self.now.world.now gate.rule) (region_marks regions.now) }
    {
        regions.has(usize::from(gate.near))
            && !regions.has(usize::from(gate.far))
            && self.meets_rule(gate.rule)
    }

    // Marks the far region of a gate that leads on, and lets it wait. The marks and those that wait are two parameters:
    // a struct of both would hold references, and each contract would have to say that they still refer to the same.
    fn cross(&self, gate: Gate, regions: &mut Regions, waiting: &mut Waiting<u8, 64>)
        requires known { KnownGate self.now.world.now gate }
        requires space { length (stacked waiting.old.stack) ≤ count (region_marks regions.old) }
        ensures regions { region_marks regions.new ≡ (if leads (held I.Inventory.meaning (I.Inventory.value self.now.held)) gate.near gate.far (rule_at self.now.world.now gate.rule) (region_marks regions.old) then slice_set (region_marks regions.old) gate.far true else region_marks regions.old) }
        ensures waits { stacked waiting.new.stack ≡ (if leads (held I.Inventory.meaning (I.Inventory.value self.now.held)) gate.near gate.far (rule_at self.now.world.now gate.rule) (region_marks regions.old) then gate.far ∷ stacked waiting.old.stack else stacked waiting.old.stack) }
    {
        if self.leads_on(gate, regions) {
            regions.mark(usize::from(gate.far));
            waiting.push(gate.far);
        }
    }

    // Crosses the gates that leave a region, from the last to the first.
    fn sweep(&self, near: u8, regions: &mut Regions, waiting: &mut Waiting<u8, 64>)
        requires { length (stacked waiting.old.stack) ≤ count (region_marks regions.old) }
        ensures widens { Widens I.Inventory.meaning (world_of self.now.world.now) (I.Inventory.value self.now.held) (region_marks regions.old) (stacked waiting.old.stack) (region_marks regions.new) (stacked waiting.new.stack) }
        ensures left { Left I.Inventory.meaning (world_of self.now.world.now) (I.Inventory.value self.now.held) near (stacked waiting.new.stack) (region_marks regions.new) }
    {
        let gates = self.world.gates();
        let mut next = self.world.last_gate(usize::from(near));
        // By `while let`: `successors` has no stated end, and that a `for` over it indexes within the gates did not close.
        while let Some(k) = next {
            let gate = gates[k as usize];
            self.cross(gate, regions, waiting);
            next = gate.earlier;
        }
    }

    // Crosses all gates once.
    fn sweep_all(&self, regions: &mut Regions, waiting: &mut Waiting<u8, 64>)
        requires { stacked waiting.old.stack ≡ [] }
        ensures widens { Widens I.Inventory.meaning (world_of self.now.world.now) (I.Inventory.value self.now.held) (region_marks regions.old) [] (region_marks regions.new) (stacked waiting.new.stack) }
        ensures settled { AllByRecursion (Settled I.Inventory.meaning (I.Inventory.value self.now.held) (stacked waiting.new.stack) (region_marks regions.new)) (world_of self.now.world.now).gates }
    {
        for gate in self.world.gates() {
            self.cross(*gate, regions, waiting);
        }
    }

    // Marks what is reached from the marked regions.
    pub(crate) fn spread(&self, regions: &mut Regions)
        ensures { Spread I.Inventory.meaning (world_of self.now.world.now) (I.Inventory.value self.now.held) (region_marks regions.old) (region_marks regions.new) }
    {
        let mut cells = [0; 64];
        let mut waiting = Waiting::new(&mut cells);
        self.sweep_all(regions, &mut waiting);
        while let Some(near) = waiting.pop() {
            self.sweep(near, regions, &mut waiting);
        }
    }

    // Marks the regions reached, and no other region.
    pub fn mark_reached(&self, regions: &mut Regions)
        ensures { regions_in (world_of self.now.world.now) regions.new ≡ reached I.Inventory.meaning (world_of self.now.world.now) (I.Inventory.value self.now.held) }
    {
        regions.clear();
        regions.mark(0);
        self.spread(regions);
    }
}
