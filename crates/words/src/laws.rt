// What is shown of words: each function's contract is a statement, and the function does nothing else.
ghost use Rattle.words.specs.Laws.{SplittingLaws, SeparatorLaws, AmountLaws, ClassLaws};

// A row of bytes cut at every separator and glued with it is the same row, and parts that were glued are found again.
#[tactic(auto, using(crate::proofs::Separators::splitting_laws))]
pub fn parts_are_glued_back()
    ensures { SplittingLaws }
{}

// No word holds a byte that words do not have, such as a space, so lines are cut into their words again.
#[tactic(auto, using(crate::proofs::Separators::separator_laws))]
pub fn words_hold_no_separator()
    ensures { SeparatorLaws }
{}

// The amounts are the numbers 1 to 999, each with one spelling.
#[tactic(auto, using(crate::proofs::Amounts::amount_laws))]
pub fn amounts_have_one_spelling()
    ensures { AmountLaws }
{}

// A rule word is free, and, or, a name, or a name with an amount, and nothing else is one.
#[tactic(auto, using(crate::proofs::Classes::class_laws))]
pub fn rule_words_have_their_spelling()
    ensures { ClassLaws }
{}
