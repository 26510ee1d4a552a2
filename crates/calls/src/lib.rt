#![tactic(auto)]

// Calls on two policy sets, one at a time or in lists.
pub mod answer;
pub mod call;
pub mod pairs;
pub mod sets;
#[cfg(test)]
mod tests;
