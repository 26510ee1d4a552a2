// Two policy sets on which calls are made.
use policy_set::set::PolicySet;

pub mod making;
pub(crate) mod merging;
pub mod reads;
pub mod running;
pub(crate) mod sides;

// The two sets.
#[derive(Drop)]
pub struct Sets {
    a: PolicySet,
    b: PolicySet,
}
