// What `link` is given.
use policy::values::SlotEnv;
use refusals::NameNumber;

// A template, the new id and the values of the slots.
#[derive(Clone, Copy, Default)]
pub struct Link {
    pub template: NameNumber,
    pub id: NameNumber,
    pub values: SlotEnv,
}
