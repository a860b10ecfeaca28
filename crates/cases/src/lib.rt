// What the code answers, case by case: run as tests.
#![tactic(auto)]

#[cfg(test)]
mod sheets;
