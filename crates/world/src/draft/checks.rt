// Whether a row is taken into a draft, and why not.
ghost use Rattle.std.specs.Prelude.{◌≡◌, true, ◌<◌, ◌≤◌, ◌&&◌, if◌then◌else◌, length, count_by, nat_lt};
ghost use Rattle.model.specs.Marks.{every};
ghost use Rattle.model.specs.Proper.{of_kinds, of_family, names_kinds};
ghost use Rattle.world.specs.Building.{told, rule_fits, rule_refusal, gate_refusal, place_refusal, goal_refusal, complete};
ghost use Rattle.world.specs.Listed.{listed};
ghost use Rattle.world.specs.Worlds.{draft_of, regions_of};

use super::Draft;
use crate::refusal::BuildRefusal;
use crate::rules::is_formed;
use crate::table::Table;
use inventory::Family;
use model::RuleWord;

// Whether a code is of a family.
fn is_of(family: Family, code: u16) -> bool
    ensures { result ≡ of_family family code }
{
    match family {
        Family::Key => code % 2 == 0,
        Family::Count => code % 4 == 1,
        Family::Tier => code % 4 == 3,
    }
}

impl Draft {
    // Whether the world has a kind of this code.
    pub fn has_kind(&self, code: u16) -> bool
        ensures { result ≡ of_kinds (listed self.now.kinds) code }
    {
        self.kinds.as_slice().contains(&code)
    }

    fn has_kind_of(&self, word: RuleWord) -> bool
        ensures { result ≡ names_kinds (listed self.now.kinds) word }
    {
        match word {
            RuleWord::Need { code, .. } => self.has_kind(code),
            RuleWord::Free | RuleWord::And | RuleWord::Or => true,
        }
    }

    fn has_kinds_of(&self, rule: &[RuleWord]) -> bool
        ensures { result ≡ every (names_kinds (listed self.now.kinds)) rule.now }
    {
        rule.iter().all(|word| self.has_kind_of(*word))
    }

    // Whether a rule finds room among the words.
    fn has_room(&self, rule: &[RuleWord]) -> bool
        ensures { result ≡ rule_fits true (length (listed self.now.words)) rule.now }
    {
        rule.len() <= 32 && self.words.has_room(rule.len())
    }

    // Whether a rule is taken in.
    fn check_rule(&self, rule: &[RuleWord]) -> Result<(), BuildRefusal>
        ensures { result ≡ told (rule_refusal (listed self.now.kinds) (length (listed self.now.words)) true rule.now) }
    {
        if !is_formed(rule) {
            return Err(BuildRefusal::IllFormed);
        }
        if !self.has_kinds_of(rule) {
            return Err(BuildRefusal::NoKind);
        }
        if self.has_room(rule) {
            Ok(())
        } else {
            Err(BuildRefusal::Full)
        }
    }

    // Whether a rule is taken in with a row of a table.
    fn check_row<T: Copy, const MAX: usize>(
        &self,
        rows: &Table<T, MAX>,
        rule: &[RuleWord],
    ) -> Result<(), BuildRefusal>
        ensures { result ≡ told (rule_refusal (listed self.now.kinds) (length (listed self.now.words)) (nat_lt (length (listed rows.now)) MAX) rule.now) }
    {
        self.check_rule(rule)?;
        if rows.is_full() {
            Err(BuildRefusal::Full)
        } else {
            Ok(())
        }
    }

    // How many kinds are of a family.
    pub fn kinds_of(&self, family: Family) -> u8
        ensures { result ≡ count_by (of_family family) (listed self.now.kinds) }
    {
        let codes = self.kinds.as_slice().iter();
        codes.filter(|code| is_of(family, **code)).count() as u8
    }

    fn has_regions(&self, near: u8, far: u8) -> bool
        ensures { result ≡ (nat_lt near (regions_of self.now) && nat_lt far (regions_of self.now)) }
    {
        near < self.region_count() && far < self.region_count()
    }

    // Whether a gate is taken in.
    #[tactic(auto, unfolding(crate::specs::Worlds::draft_of))]
    pub(super) fn check_gate(
        &self,
        near: u8,
        far: u8,
        rule: &[RuleWord],
    ) -> Result<(), BuildRefusal>
        ensures { result ≡ told (gate_refusal (draft_of self.now) near far rule.now) }
    {
        if !self.has_regions(near, far) {
            return Err(BuildRefusal::NoRegion);
        }
        self.check_row(&self.gates, rule)
    }

    // Whether a place is taken in.
    #[tactic(auto, unfolding(crate::specs::Worlds::draft_of))]
    pub(super) fn check_place(&self, region: u8, rule: &[RuleWord]) -> Result<(), BuildRefusal>
        ensures { result ≡ told (place_refusal (draft_of self.now) region rule.now) }
    {
        if region >= self.region_count() {
            return Err(BuildRefusal::NoRegion);
        }
        self.check_row(&self.places, rule)
    }

    // Whether a goal is set.
    #[tactic(auto, unfolding(crate::specs::Worlds::draft_of))]
    pub(super) fn check_goal(&self, rule: &[RuleWord]) -> Result<(), BuildRefusal>
        ensures { result ≡ told (goal_refusal (draft_of self.now) rule.now) }
    {
        if self.goal.is_some() {
            return Err(BuildRefusal::GoalSet);
        }
        self.check_rule(rule)?;
        if self.region_count() == 0 {
            Err(BuildRefusal::NoRegion)
        } else {
            Ok(())
        }
    }

    // Whether nothing is missing: a region at least, and the goal.
    #[tactic(auto, using(crate::proofs::Finished::told_complete))]
    pub fn is_complete(&self) -> bool
        ensures { result ≡ complete (draft_of self.now) }
    {
        self.region_count() != 0 && self.goal.is_some()
    }
}
