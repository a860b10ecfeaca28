// Whether a rule is well formed.
ghost use Rattle.std.specs.Prelude.{◌≡◌};
ghost use Rattle.model.specs.Rules.{weigh as weigh_word, weighed, formed};

use model::RuleWord;

// How many answers wait after a word where some waited; none where the word finds too many or too few.
pub fn weigh(waiting: u8, word: RuleWord) -> Option<u8>
    ensures { result ≡ weigh_word waiting word }
{
    match word {
        RuleWord::Free | RuleWord::Need { .. } => (waiting < 8).then(|| waiting + 1),
        RuleWord::And | RuleWord::Or => (waiting > 1).then(|| waiting - 1),
    }
}

// How many answers wait at the end; none where a word finds too many or too few.
fn weigh_all(rule: &[RuleWord]) -> Option<u8>
    ensures { result ≡ weighed 0 rule.now }
{
    // `try_fold` was tried, and the goal that the answer is `weighed` did not close
    let mut waiting = 0;
    for word in rule {
        waiting = weigh(waiting, *word)?;
    }
    Some(waiting)
}

// Whether every word finds what it needs, and one answer is left.
pub fn is_formed(rule: &[RuleWord]) -> bool
    ensures { result ≡ formed rule.now }
{
    weigh_all(rule) == Some(1)
}
