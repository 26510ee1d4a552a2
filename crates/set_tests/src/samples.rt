// Books, templates and values for the tests.
use clauses::sealed::book::SealedBook;
use names::entity::EntityUID;
use names::kept::NameBook;
use policy::constraint::{Effect, EntityReference, PrincipalOrResourceConstraint};
use policy::scope::ActionScope;
use policy::template::Template;
use policy::values::SlotEnv;
use refusals::NameNumber;
use refusals::refusal::Refusal;
use std::alloc::Global;
use std::test::Fail;

// A name book and a clause book.
#[derive(Drop)]
pub(crate) struct Books {
    pub(crate) names: NameBook,
    pub(crate) clauses: SealedBook,
}

// Books with these texts and clauses.
pub(crate) fn filled(heap: Global, texts: &[&[u8]], clauses: &[&[u8]]) -> Result<Books, Fail> {
    let mut names = NameBook::new(heap, 16, 256)?;
    for text in texts {
        let _ = names.name(text)?;
    }
    let mut book = SealedBook::new(heap)?;
    for clause in clauses {
        let _ = book.enter(clause)?;
    }
    Ok(Books {
        names,
        clauses: book,
    })
}

// A template under an id, all any but the principal.
pub(crate) fn template(
    books: &Books,
    id: NameNumber,
    principal: PrincipalOrResourceConstraint,
    clause: Option<u16>,
) -> Result<Template, Refusal> {
    Template::new(
        id,
        Effect::Permit,
        principal,
        ActionScope::Any,
        ANY,
        clause,
        &books.names,
        &books.clauses,
    )
}

pub(crate) const SLOT: PrincipalOrResourceConstraint = PrincipalOrResourceConstraint::Eq(
    EntityReference::Slot,
);

pub(crate) const ANY: PrincipalOrResourceConstraint = PrincipalOrResourceConstraint::Any;

// The values of a principal alone.
pub(crate) fn principal(e: EntityUID) -> SlotEnv {
    SlotEnv {
        principal: Some(e),
        resource: None,
    }
}
