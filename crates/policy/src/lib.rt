#![tactic(auto)]

pub mod action;
pub mod binding;
pub mod bound;
pub mod condition;
pub mod condition_slots;
pub mod constraint;
pub mod edges;
pub mod equality;
pub mod fill;
pub mod fixed;
pub mod known;
pub mod list;
pub mod making;
pub mod node;
pub(crate) mod nodes;
pub(crate) mod parts;
pub mod scope;
pub mod slot_set;
pub mod statics;
pub mod template;
pub mod values;
