#![tactic(auto)]

pub mod decode;
pub mod encode;
pub mod number;
pub mod parts;
#[cfg(test)]
mod tests;
pub mod words;
