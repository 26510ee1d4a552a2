use crate::books::{Books, CLAUSE};
use crate::rng::Rng;
use crate::stop::Stop;
use crate::unit::Unit;
use names::entity::EntityUID;
use policy::constraint::{Effect, EntityReference, PrincipalOrResourceConstraint};
use policy::node::ConditionNode;
use policy::scope::ActionScope;
use policy::template::Template;
use std::alloc::Global;

// The condition of a template with eight actions: 27 nodes, the most that there can be.
#[derive(Drop)]
pub struct Condition {
    books: Books,
    template: Template,
    buffer: [ConditionNode; 27],
}

// The principal is a user in its slot's value, and the resource a file in another.
fn template(books: &mut Books, clause: u16) -> Result<Template, Stop> {
    let mut rng = Rng::new(9);
    let (user, file, action) = (books.user, books.file, books.action);
    let folder = books.entity(&mut rng, file)?;
    let id = books.id(&mut rng)?;
    let actions: [EntityUID; 8] = books.entities(&mut rng, action)?;
    Ok(Template::new(
        id,
        Effect::Permit,
        PrincipalOrResourceConstraint::IsIn(user, EntityReference::Slot),
        ActionScope::In(&actions),
        PrincipalOrResourceConstraint::IsIn(file, EntityReference::EUID(folder)),
        Some(clause),
        &books.names,
        &books.clauses,
    )?)
}

impl Condition {
    pub(crate) fn new(heap: Global) -> Result<Condition, Stop> {
        let mut books = Books::new(heap)?;
        let clause = books.clauses.enter(CLAUSE)?;
        let template = template(&mut books, clause)?;
        Ok(Condition {
            books,
            template,
            buffer: [ConditionNode::And; 27],
        })
    }
}

impl Unit for Condition {
    const NAME: &'static str = "condition";

    fn work(&mut self) -> Result<usize, Stop> {
        let (names, clauses) = (&self.books.names, &self.books.clauses);
        Ok(self.template.condition(names, clauses, &mut self.buffer)?)
    }
}
