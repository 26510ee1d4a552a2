use names::entity::EntityUID;

// The values that slots are given.
#[derive(Clone, Copy, PartialEq, Eq, Default, Debug)]
pub struct SlotEnv {
    pub principal: Option<EntityUID>,
    pub resource: Option<EntityUID>,
}
