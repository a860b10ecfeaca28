// Reading a world's tables. Its readers promise what holds of every world and not of every draft, so they are no copies.
// A slice's length is told with it, since no type of a slice has a bound.
ghost use Rattle.std.specs.Prelude.{◌≡◌, ℕ, ◌<◌, ◌≤◌, T, map, length};
ghost use Rattle.std.specs.List.{AllByRecursion};
ghost use Rattle.model.specs.Proper.{proper, words_in};
ghost use Rattle.model.specs.Rules.{formed};
ghost use Rattle.world.specs.Rows.{last_leaving};
ghost use Rattle.world.specs.Worlds.{world_of, rule_at, gate_rows, gateway, spot, KnownGate, KnownPlace, Chained};

use super::World;
use crate::rows::{Gate, Part, Place};
use model::RuleWord;

#[tactic(auto, unfolding(crate::specs::Worlds::draft_of, crate::specs::Worlds::world_of, crate::specs::Worlds::rule_at, crate::specs::Worlds::gateway, crate::specs::Worlds::gate_rows, crate::specs::Worlds::spot))]
impl World {
    // Every world that exists keeps the limits and names only what it has.
    pub fn region_count(&self) -> u8
        ensures count { result ≡ (world_of self.now).regions }
        ensures some { 1 ≤ result }
        ensures few { result ≤ 64 }
        ensures is_proper { T (proper (world_of self.now)) }
    {
        self.made.region_count()
    }

    // The codes of the kinds, in order.
    pub fn kinds(&self) -> &[u16]
        ensures { result.now ≡ (world_of self.now).kinds }
    {
        self.made.kinds()
    }

    // The gates, in order.
    pub fn gates(&self) -> &[Gate]
        ensures rows { result.now ≡ gate_rows self.now }
        ensures meaning { map (gateway self.now) result.now ≡ (world_of self.now).gates }
        ensures few { length result.now ≤ 256 }
        ensures known { AllByRecursion (KnownGate self.now) result.now }
        ensures chained { Chained result.now }
    {
        self.made.gates()
    }

    // The index of the last gate that leaves a region.
    pub fn last_gate(&self, region: usize) -> Option<u16>
        ensures known { region < (world_of self.now).regions → result ≡ last_leaving (gate_rows self.now) region (length (gate_rows self.now)) }
        ensures unknown { (world_of self.now).regions ≤ region → result ≡ None }
    {
        self.made.last_gate(region)
    }

    // The places, in order.
    pub fn places(&self) -> &[Place]
        ensures meaning { map (spot self.now) result.now ≡ (world_of self.now).places }
        ensures few { length result.now ≤ 256 }
        ensures known { AllByRecursion (KnownPlace self.now) result.now }
    {
        self.made.places()
    }

    // The codes of the pool's items, in order.
    pub fn pool(&self) -> &[u16]
        ensures codes { result.now ≡ (world_of self.now).pool }
        ensures few { length result.now ≤ 256 }
    {
        self.made.pool()
    }

    // The codes of the stock's items, in order.
    pub fn stock(&self) -> &[u16]
        ensures codes { result.now ≡ (world_of self.now).stock }
        ensures few { length result.now ≤ 32 }
    {
        self.made.stock()
    }

    // The rule of the goal.
    pub fn goal(&self) -> Part
        ensures words { rule_at self.now result ≡ (world_of self.now).goal }
        ensures well_formed { T (formed (rule_at self.now result)) }
    {
        self.made.goal().unwrap()
    }

    // The words of a rule.
    pub fn rule(&self, part: Part) -> &[RuleWord]
        ensures { result.now ≡ rule_at self.now part }
    {
        self.made.rule(part)
    }

    // How many words all rules have together.
    pub fn word_count(&self) -> usize
        ensures { result ≡ words_in (world_of self.now) }
    {
        self.made.word_count()
    }
}
