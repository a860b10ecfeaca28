// Whether a player meets a rule.
ghost use Rattle.std.specs.Prelude.{◌≡◌, length, None, MatchOption};
ghost use Rattle.inventory.specs.Meaning.{held};
ghost use Rattle.scratch.specs.Held.{held as stacked};
ghost use Rattle.model.specs.Rules.{reads, weigh};
ghost use Rattle.world.specs.Worlds.{world_of, rule_at};
ghost use Rattle.explore.specs.Meeting.{met, answered, PutDown};

use crate::player::Player;
use crate::waiting::Waiting;
use inventory::Inventory;
use model::RuleWord;
use world::Part;

// Lets a word work on the answers that wait, if it finds what it needs. Each joiner takes its two off by itself: handed
// over as a pair, they made asking what is open a quarter slower.
fn put_down<I: Inventory>(
    value: &I,
    word: RuleWord,
    waiting: &mut Waiting<'_, bool, 8>,
) -> Option<()>
    ensures put { MatchOption result (weigh (length (stacked waiting.old.stack)) word ≡ None) (λ _. PutDown (held I.Inventory.meaning (I.Inventory.value value.now)) word (stacked waiting.old.stack) (stacked waiting.new.stack)) }
{
    match word {
        RuleWord::Free => waiting.lay(true),
        RuleWord::Need { code, amount } => waiting.lay(value.holds(code, amount)),
        RuleWord::And => {
            let newer = waiting.pop()?;
            let older = waiting.pop()?;
            waiting.lay(older & newer)
        }
        RuleWord::Or => {
            let newer = waiting.pop()?;
            let older = waiting.pop()?;
            waiting.lay(older | newer)
        }
    }
}

// Passes over the words from left to right; words that are not a well formed rule have no answer.
fn answer<I: Inventory>(value: &I, rule: &[RuleWord]) -> Option<bool>
    ensures { result ≡ answered (held I.Inventory.meaning (I.Inventory.value value.now)) rule.now }
{
    let mut cells = [false; 8];
    let mut waiting = Waiting::new(&mut cells);
    for word in rule {
        put_down(value, *word, &mut waiting)?;
    }
    let newest = waiting.pop()?;
    waiting.pop().is_none().then_some(newest)
}

impl<I: Inventory> Player<'_, I> {
    // Whether what is held meets a rule of the world; words that are not a well formed rule are never met.
    pub fn meets_rule(&self, rule: Part) -> bool
        ensures { result ≡ met (held I.Inventory.meaning (I.Inventory.value self.now.held)) (rule_at self.now.world.now rule) }
    {
        answer(&self.held, self.world.rule(rule)).unwrap_or(false)
    }

    // Whether what is held meets the goal.
    pub fn meets_goal(&self) -> bool
        ensures { result ≡ reads (held I.Inventory.meaning (I.Inventory.value self.now.held)) (world_of self.now.world.now).goal }
    {
        self.meets_rule(self.world.goal())
    }
}
