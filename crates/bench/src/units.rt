// What is timed.
pub mod condition;
pub mod get;
pub mod links;
pub mod lookup;
pub mod merge_equal;
pub mod merge_rename;
