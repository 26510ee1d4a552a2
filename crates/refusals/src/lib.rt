#![tactic(auto)]

pub mod number;
pub mod refusal;
pub mod slot_set;
pub mod slots;

// The number of a name in a name book. Its width is fixed here and nowhere else.
pub type NameNumber = u16;
