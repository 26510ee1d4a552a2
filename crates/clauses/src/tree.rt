pub mod book;
mod check;
pub mod clause;
mod name_checks;
pub mod node;
pub mod shape;
