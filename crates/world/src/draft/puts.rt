// Putting a row into a draft that is not to refuse it.
ghost use Rattle.std.specs.Prelude.{◌≡◌, ◌+◌, ◌≤◌, ◌++◌, None, length};
ghost use Rattle.world.specs.Listed.{listed};
ghost use Rattle.world.specs.Building.{with_gate, with_place, with_goal, gate_refusal, place_refusal, goal_refusal};
ghost use Rattle.world.specs.Worlds.{draft_of};

use super::Draft;
use crate::rows::{Gate, Part, Place};
use crate::table::Table;
use inventory::Family;
use model::RuleWord;

// Puts the words of a rule behind the others; answers where they stand.
fn put_words(words: &mut Table<RuleWord, 4096>, rule: &[RuleWord]) -> Part
    requires { length (listed words.old) + length rule.now ≤ 4096 }
    ensures start { result.start ≡ length (listed words.old) }
    ensures len { result.len ≡ length rule.now }
    ensures words { listed words.new ≡ listed words.old ++ rule.now }
{
    let part = Part {
        start: words.len() as u16,
        len: rule.len() as u16,
    };
    words.extend(rule).unwrap();
    part
}

impl Draft {
    pub(super) fn put_gate(&mut self, near: u8, far: u8, rule: &[RuleWord])
        requires { gate_refusal (draft_of self.old) near far rule.now ≡ None }
        ensures { draft_of self.new ≡ with_gate (draft_of self.old) (record { near = near; far = far; rule = rule.now }) }
    {
        let leaving = usize::from(near);
        let at = self.gates.len() as u16;
        let earlier = self.latest.get_or(leaving, None);
        let part = put_words(&mut self.words, rule);
        let gate = Gate {
            near,
            far,
            rule: part,
            earlier,
        };
        self.gates.push(gate).unwrap();
        self.latest.replace(leaving, Some(at));
    }

    pub(super) fn put_place(&mut self, region: u8, rule: &[RuleWord])
        requires { place_refusal (draft_of self.old) region rule.now ≡ None }
        ensures { draft_of self.new ≡ with_place (draft_of self.old) (record { region = region; rule = rule.now }) }
    {
        let part = put_words(&mut self.words, rule);
        let place = Place { region, rule: part };
        self.places.push(place).unwrap();
    }

    pub(super) fn put_goal(&mut self, rule: &[RuleWord])
        requires { goal_refusal (draft_of self.old) rule.now ≡ None }
        ensures { draft_of self.new ≡ with_goal (draft_of self.old) rule.now }
    {
        let part = put_words(&mut self.words, rule);
        self.goal = Some(part);
    }
}
