// The books that sets stand on.
use crate::rng::Rng;
use crate::stop::Stop;
use clauses::sealed::book::SealedBook;
use names::book::{PLACES, ROOM};
use names::entity::EntityUID;
use names::kept::NameBook;
use refusals::NameNumber;
use std::alloc::Global;

pub const CLAUSE: &[u8] =
    b"context.hour >= 9 && context.hour < 17 && resource.owner == principal.manager";

// As long as the other, and another in its last byte.
pub const OTHER_CLAUSE: &[u8] =
    b"context.hour >= 9 && context.hour < 17 && resource.owner == principal.manages";

// Texts and clauses by number, and the types of the entities.
#[derive(Drop)]
pub struct Books {
    heap: Global,
    pub names: NameBook,
    pub clauses: SealedBook,
    pub user: NameNumber,
    pub file: NameNumber,
    pub action: NameNumber,
}

impl Books {
    pub(crate) fn new(heap: Global) -> Result<Books, Stop> {
        let mut names = NameBook::new(heap, PLACES, ROOM)?;
        let clauses = SealedBook::new(heap)?;
        let user = names.name(b"Org::User")?;
        let file = names.name(b"Org::File")?;
        let action = names.name(b"Org::Action")?;
        Ok(Books {
            heap,
            names,
            clauses,
            user,
            file,
            action,
        })
    }

    pub(crate) fn heap(&self) -> Global {
        self.heap
    }

    // An id of eight to sixteen letters.
    pub(crate) fn id(&mut self, rng: &mut Rng) -> Result<NameNumber, Stop> {
        let text = rng.text(self.heap, 8, 16)?;
        Ok(self.names.name(text.as_slice())?)
    }

    // An entity of a type.
    pub(crate) fn entity(&mut self, rng: &mut Rng, ty: NameNumber) -> Result<EntityUID, Stop> {
        let eid = self.id(rng)?;
        Ok(EntityUID { ty, eid })
    }

    // Several entities of a type.
    pub(crate) fn entities<const N: usize>(
        &mut self,
        rng: &mut Rng,
        ty: NameNumber,
    ) -> Result<[EntityUID; N], Stop> {
        let mut entities = [EntityUID { ty, eid: ty }; N];
        for entity in entities.iter_mut() {
            *entity = self.entity(rng, ty)?;
        }
        Ok(entities)
    }
}
