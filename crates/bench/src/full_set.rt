// Full sets: equal arguments make equal sets, and another clause the same ids for unequal contents.
ghost use Rattle.std.specs.Prelude.{◌≡◌, ◌+◌, ◌-◌, ◌%◌, ◌<◌, ◌≤◌, ◌==◌, ◌++◌, IfOk, is_some, length, map, vec_len, true, false};
ghost use Rattle.policy.specs.Arity.{Exact};
ghost use Rattle.policy.specs.Filling.{slotted};
ghost use Rattle.policy.specs.Slots.{has};
ghost use Rattle.policy_set.specs.Answers.{empty, with_template};
ghost use Rattle.policy_set.specs.Meaning.{maps_of};
ghost use Rattle.bench.specs.Growth.{Grows, Links, by_turns, templates_of, in_turn};

use crate::books::Books;
use crate::link::Link;
use crate::parties::Parties;
use crate::rng::Rng;
use crate::stop::Stop;
use names::entity::EntityUID;
use policy::constraint::{Effect, EntityReference, PrincipalOrResourceConstraint};
use policy::fixed::StaticPolicy;
use policy::scope::ActionScope;
use policy::template::Template;
use policy::values::SlotEnv;
use policy_set::set::PolicySet;
use refusals::slots::{SlotId, SlotSet};

const SEED: u64 = 7;

// How many templates there are; how many of them have slots, one and two by turns, where the others are static policies;
// and how many links of those with slots, in turn.
#[derive(Clone, Copy)]
pub struct Size {
    pub templates: usize,
    pub slotted: usize,
    pub links: usize,
}

// 64 templates and 256 policies: both tables are full.
pub const FULL: Size = Size {
    templates: 64,
    slotted: 32,
    links: 224,
};

const _: () = prove!(FULL.templates == 64);

const _: () = prove!(FULL.templates - FULL.slotted + FULL.links == 256);

// What the templates and links of a set are drawn from.
#[derive(Drop)]
struct Source {
    rng: Rng,
    parties: Parties,
    clause: u16,
}

// The scope of a resource that is a file in another.
fn in_file(books: &Books, folder: EntityUID) -> PrincipalOrResourceConstraint
    ensures { slotted result ≡ false }
{
    PrincipalOrResourceConstraint::IsIn(books.file, EntityReference::EUID(folder))
}

impl Source {
    // A template under a new id; `i` says which actions it is for.
    fn template(
        &mut self,
        books: &mut Books,
        i: usize,
        principal: PrincipalOrResourceConstraint,
        resource: PrincipalOrResourceConstraint,
    ) -> Result<Template, Stop>
        ensures principal { IfOk result (λ t. t.principal ≡ principal) }
        ensures resource { IfOk result (λ t. t.resource ≡ resource) }
    {
        let id = books.id(&mut self.rng)?;
        Ok(Template::new(
            id,
            Effect::Permit,
            principal,
            ActionScope::In(&self.parties.two_actions(i)),
            resource,
            Some(self.clause),
            &books.names,
            &books.clauses,
        )?)
    }

    // The scope of the resource of a template with slots: a file's where `i` is even, and else a second slot.
    fn resource(&self, books: &Books, i: usize) -> PrincipalOrResourceConstraint
        ensures { slotted result ≡ (i % 2 == 1) }
    {
        if i % 2 == 0 {
            in_file(books, self.parties.file(i))
        } else {
            PrincipalOrResourceConstraint::In(EntityReference::Slot)
        }
    }

    // Adds a template with one slot where `i` is even, and else with two.
    fn add_template(
        &mut self,
        books: &mut Books,
        set: &mut PolicySet,
        i: usize,
    ) -> Result<Template, Stop>
        ensures principal { IfOk result (λ t. slotted t.principal ≡ true) }
        ensures resource { IfOk result (λ t. slotted t.resource ≡ (i % 2 == 1)) }
        ensures added { IfOk result (λ t. maps_of set.new ≡ with_template t (maps_of set.old)) }
    {
        let principal = PrincipalOrResourceConstraint::In(EntityReference::Slot);
        let resource = self.resource(books, i);
        let template = self.template(books, i, principal, resource)?;
        set.add_template(template, &books.names, &books.clauses)?;
        Ok(template)
    }

    // Adds so many templates, with one slot and with two by turns; the templates.
    fn add_templates(
        &mut self,
        books: &mut Books,
        set: &mut PolicySet,
        count: usize,
    ) -> Result<Vec<Template>, Stop>
        ensures count { IfOk result (λ ts. vec_len ts ≡ count) }
        ensures turns { IfOk result (λ ts. map (λ t. slotted t.resource) ts.items ≡ by_turns count) }
        ensures size { IfOk result (λ _. Grows (maps_of set.old) (maps_of set.new) count 0) }
    {
        let mut templates = Vec::new(books.heap());
        for i in 0..count {
            templates.push(self.add_template(books, set, i)?)?;
        }
        Ok(templates)
    }

    fn add_static(&mut self, books: &mut Books, set: &mut PolicySet, i: usize) -> Result<(), Stop>
        ensures { IfOk result (λ _. Grows (maps_of set.old) (maps_of set.new) 1 1) }
    {
        let user = EntityReference::EUID(self.parties.user(i));
        let principal = PrincipalOrResourceConstraint::Eq(user);
        let resource = in_file(books, self.parties.file(i));
        let template = self.template(books, i, principal, resource)?;
        let policy = StaticPolicy::new(template, &books.names, &books.clauses)?;
        Ok(set.add_static(policy, &books.names, &books.clauses)?)
    }

    // Values for these slots.
    fn values(&mut self, slots: SlotSet) -> SlotEnv
        ensures principal { is_some result.principal ≡ has SlotId.Principal slots }
        ensures resource { is_some result.resource ≡ has SlotId.Resource slots }
    {
        let principal = if slots.has(SlotId::Principal) {
            Some(self.parties.any_user(&mut self.rng))
        } else {
            None
        };
        let resource = if slots.has(SlotId::Resource) {
            Some(self.parties.any_file(&mut self.rng))
        } else {
            None
        };
        SlotEnv {
            principal,
            resource,
        }
    }

    // A new link of a template, with values for exactly its slots.
    fn new_link(&mut self, books: &mut Books, template: &Template) -> Result<Link, Stop>
        ensures template { IfOk result (λ link. link.template ≡ template.now.id) }
        ensures exact { IfOk result (λ link. Exact template.now.slots link.values) }
    {
        let values = self.values(template.slots);
        let id = books.id(&mut self.rng)?;
        Ok(Link {
            template: template.id,
            id,
            values,
        })
    }

    // Links a template under a new id.
    fn add_link(
        &mut self,
        books: &mut Books,
        set: &mut PolicySet,
        template: &Template,
    ) -> Result<(), Stop>
        ensures { IfOk result (λ _. Links template.now (maps_of set.old) (maps_of set.new)) }
    {
        let link = self.new_link(books, template)?;
        set.link(link.template, link.id, link.values, &books.names)?;
        Ok(())
    }

    // Links the templates with slots in turn, so many times in all.
    fn add_links(
        &mut self,
        books: &mut Books,
        set: &mut PolicySet,
        slotted: &[Template],
        links: usize,
    ) -> Result<(), Stop>
        requires { 0 < length slotted.now }
        ensures size { IfOk result (λ _. Grows (maps_of set.old) (maps_of set.new) 0 links) }
        ensures turns { IfOk result (λ _. templates_of (maps_of set.new) ≡ templates_of (maps_of set.old) ++ in_turn slotted.now links) }
    {
        for i in 0..links {
            self.add_link(books, set, &slotted[i % slotted.len()])?;
        }
        Ok(())
    }
}

// A set of this size, whose templates all have this clause.
pub(crate) fn full_set(books: &mut Books, size: Size, clause: u16) -> Result<PolicySet, Stop>
    requires some { 0 < size.slotted }
    requires most { size.slotted ≤ size.templates }
    ensures { IfOk result (λ set. Grows empty (maps_of set) size.templates (size.templates - size.slotted + size.links)) }
{
    let mut rng = Rng::new(SEED);
    let parties = Parties::new(books, &mut rng)?;
    let mut source = Source {
        rng,
        parties,
        clause,
    };
    let mut set = PolicySet::new();
    let slotted = source.add_templates(books, &mut set, size.slotted)?;
    for i in size.slotted..size.templates {
        source.add_static(books, &mut set, i)?;
    }
    source.add_links(books, &mut set, slotted.as_slice(), size.links)?;
    Ok(set)
}
