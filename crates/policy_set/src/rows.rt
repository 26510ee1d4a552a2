// The rows of a set's tables.
use crate::keyed::Keyed;
use policy::action::ActionConstraint;
use policy::constraint::{Effect, PrincipalOrResourceConstraint};
use policy::template::Template;
use policy::values::SlotEnv;
use refusals::NameNumber;
use refusals::slots::SlotSet;

impl Keyed for Template {
    ghost naming = { λ t. t.id };

    fn key(&self) -> NameNumber {
        self.id
    }
}

// A policy as the set keeps it: its template goes by its id. A static policy has its template's id.
// `link` is a flag: as an option of the id, the id would stand twice.
#[derive(Clone, Copy)]
pub(crate) struct PolicyRow {
    pub id: NameNumber,
    pub template: NameNumber,
    pub link: bool,
    pub values: SlotEnv,
}

impl Keyed for PolicyRow {
    ghost naming = { λ p. p.id };

    fn key(&self) -> NameNumber {
        self.id
    }
}

// A policy among those of its template.
#[derive(Clone, Copy)]
pub(crate) struct Member {
    pub policy: NameNumber,
    pub template: NameNumber,
}

impl Keyed for Member {
    ghost naming = { λ m. m.policy };

    fn key(&self) -> NameNumber {
        self.policy
    }
}

// An incoming id and the one that it goes in under. `Default` only since vectors of fixed capacity fill unused places with it.
#[derive(Clone, Copy, Default)]
pub struct Renaming {
    pub old: NameNumber,
    pub new: NameNumber,
}

impl Keyed for Renaming {
    ghost naming = { λ p. p.old };

    fn key(&self) -> NameNumber {
        self.old
    }
}

// What stands in the unused places of a table.
pub(crate) const BLANK_TEMPLATE: Template = Template {
    id: 0,
    effect: Effect::Permit,
    principal: PrincipalOrResourceConstraint::Any,
    action: ActionConstraint::Any,
    resource: PrincipalOrResourceConstraint::Any,
    clause: None,
    slots: SlotSet { bits: 0 },
};

pub(crate) const BLANK_POLICY: PolicyRow = PolicyRow {
    id: 0,
    template: 0,
    link: false,
    values: SlotEnv {
        principal: None,
        resource: None,
    },
};

pub(crate) const BLANK_MEMBER: Member = Member {
    policy: 0,
    template: 0,
};
