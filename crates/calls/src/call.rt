// The calls that are made on two sets and their name book.
use policy::bound::Policy;
use policy::fixed::StaticPolicy;
use policy::template::Template;
use policy::values::SlotEnv;
use refusals::NameNumber;

// One of the two sets.
#[derive(Clone, Copy)]
pub enum Side {
    A,
    B,
}

// A call with its arguments.
#[derive(Clone, Copy)]
pub enum Call<'a> {
    // the text to name
    Name(&'a [u8]),
    AddTemplate(Side, Template),
    AddStatic(Side, StaticPolicy),
    Add(Side, Policy),
    // a template's id, the new id and the values
    Link(Side, NameNumber, NameNumber, SlotEnv),
    // an id, here and below
    Unlink(Side, NameNumber),
    RemoveStatic(Side, NameNumber),
    RemoveTemplate(Side, NameNumber),
    // the other set goes into this one: whether ids may be renamed, and how many pairs there is room for
    Merge(Side, bool, usize),
}
