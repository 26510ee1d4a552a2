#![tactic(auto)]

pub mod book;
pub mod content;
pub mod contents;
pub mod naming;
pub mod sealed;
#[cfg(test)]
mod tests;
pub mod tree;
