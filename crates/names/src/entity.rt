use refusals::NameNumber;

// An entity: the number of its type's name and the number of its id.
#[derive(Clone, Copy, PartialEq, Eq, Debug)]
pub struct EntityUID {
    pub ty: NameNumber,
    pub eid: NameNumber,
}
