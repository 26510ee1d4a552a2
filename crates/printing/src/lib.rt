#![tactic(auto)]

// What the console prints, as lines of text.
pub mod answers;
pub mod nodes;
pub mod print;
pub mod records;
pub mod refused;
pub mod scopes;
