// What worlds, rules, gathering, placements, boards and runs are, and what is shown of them.
#![tactic(auto)]

mod board_refusal;
mod laws;
mod rule_word;
mod run_refusal;
mod sight;

pub use board_refusal::BoardRefusal;
pub use laws::{
    each_place_has_its_answer, gathered_places_are_least, more_items_close_nothing,
    proper_worlds_keep_the_limits, reached_regions_are_least, rules_answer_once,
    spheres_are_first_rounds, whole_placements_can_be_finished,
};
pub use rule_word::RuleWord;
pub use run_refusal::RunRefusal;
pub use sight::Sight;
