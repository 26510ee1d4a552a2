#![tactic(auto)]

pub mod book;
pub mod entity;
pub mod index;
pub mod keeper;
pub mod kept;
#[cfg(test)]
mod tests;
pub mod text;
pub mod type_name;
