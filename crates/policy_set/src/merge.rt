// Merging one set into another.
pub(crate) mod attempt;
pub(crate) mod both;
pub(crate) mod candidate;
pub(crate) mod choice;
pub(crate) mod clash;
pub(crate) mod enter;
pub(crate) mod gather;
pub(crate) mod plan;
pub(crate) mod put;
