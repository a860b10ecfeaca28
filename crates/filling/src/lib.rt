// The attempts of a fill: a place is drawn for each item that is not set.
#![tactic(auto)]

mod assumed;
mod attempt;
mod candidates;
mod fill;
mod no_candidate;
mod numbers;
mod steps;
mod unset;

pub use fill::fill_places;
pub use no_candidate::NoCandidate;
