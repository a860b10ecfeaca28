// The words of a world text: bytes, names and amounts, and what a word says in a rule.
#![tactic(auto)]

mod laws;
mod names;
mod spelling;
mod splitting;
mod word;

pub use laws::{
    amounts_have_one_spelling, parts_are_glued_back, rule_words_have_their_spelling,
    words_hold_no_separator,
};
pub use names::find_name;
pub use spelling::{amount_of, is_name, is_word};
pub use splitting::cut;
pub use word::{Placed, Word, word_of};
