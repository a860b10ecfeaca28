// A word of a rule. Rules are written in postfix: what a joiner joins stands before it.
#[derive(Clone, Copy, PartialEq, Eq, Debug)]
pub enum RuleWord {
    Free,
    Need { code: u16, amount: u16 },
    And,
    Or,
}
