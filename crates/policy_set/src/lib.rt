#![tactic(auto)]

// Policy sets: templates, links of them and static policies.
pub mod edges;
pub(crate) mod keyed;
pub(crate) mod merge;
pub mod rows;
pub mod set;
pub(crate) mod tables;
