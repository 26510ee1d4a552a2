use crate::answer::{Answer, Handed};
use crate::call::{Call, Side};
use crate::pairs::Pairs;
use crate::sets::Sets;
use clauses::sealed::book::SealedBook;
use names::entity::EntityUID;
use names::kept::NameBook;
use policy::bound::Policy;
use policy::constraint::{Effect, EntityReference, PrincipalOrResourceConstraint};
use policy::scope::ActionScope;
use policy::template::Template;
use policy::values::SlotEnv;
use refusals::NameNumber;
use refusals::refusal::Refusal;
use std::test::Fail;

// A template under an id whose principal is as given, and any else.
fn template(
    id: NameNumber,
    principal: PrincipalOrResourceConstraint,
    names: &NameBook,
    clauses: &SealedBook,
) -> Result<Template, Refusal> {
    Template::new(
        id,
        Effect::Permit,
        principal,
        ActionScope::Any,
        PrincipalOrResourceConstraint::Any,
        None,
        names,
        clauses,
    )
}

// The values of a tenant as principal.
fn tenant(eid: NameNumber) -> SlotEnv {
    SlotEnv {
        principal: Some(EntityUID { ty: 3, eid }),
        resource: None,
    }
}

// The tenant of a policy that was handed back or read, if there is one.
fn tenant_of(policy: Option<Policy>) -> Option<NameNumber> {
    policy?.values.principal.map(|e| e.eid)
}

// The policy that an answer hands back, if it is one.
fn handed_policy(answer: Answer) -> Option<Policy> {
    match answer {
        Ok(Handed::Policy(policy)) => Some(policy),
        _ => None,
    }
}

// The pairs that an answer hands back, if it is some.
fn handed_pairs(answer: Answer) -> Option<Pairs> {
    match answer {
        Ok(Handed::Pairs(pairs)) => Some(pairs),
        _ => None,
    }
}

// The number of a text that an answer hands back, if it is one.
fn handed_name(answer: Answer) -> Option<NameNumber> {
    match answer {
        Ok(Handed::Name(number)) => Some(number),
        _ => None,
    }
}

// The number of the refusal that an answer is; 0 for none.
fn refusal_of(answer: Answer) -> u8 {
    match answer {
        Ok(_) => 0,
        Err(refusal) => refusal.number(),
    }
}

const EQ_SLOT: PrincipalOrResourceConstraint = PrincipalOrResourceConstraint::Eq(
    EntityReference::Slot,
);

const IN_SLOT: PrincipalOrResourceConstraint = PrincipalOrResourceConstraint::In(
    EntityReference::Slot,
);

// A template on each side under one id, and a link of each under another; one link was another tenant's before. A merge
// renames both ids, and each set's links keep their tenants.
#[test]
fn tenants_on_two_sets(rt: HostRuntime) -> Result<(), Fail> {
    let mut names = NameBook::new(rt.alloc(), 16, 256)?;
    let clauses = SealedBook::new(rt.alloc())?;
    let texts: [&[u8]; 6] = [b"read", b"grant", b"", b"Tenant", b"acme", b"globex"];
    for text in texts {
        let _ = names.name(text)?;
    }
    let calls = [
        Call::AddTemplate(Side::A, template(0, EQ_SLOT, &names, &clauses)?),
        Call::Link(Side::A, 0, 1, tenant(4)),
        Call::Unlink(Side::A, 1),
        Call::Link(Side::A, 0, 1, tenant(5)),
        Call::AddTemplate(Side::B, template(0, IN_SLOT, &names, &clauses)?),
        Call::Link(Side::B, 0, 1, tenant(4)),
        Call::Merge(Side::A, false, 320),
        Call::Merge(Side::A, true, 1),
        Call::Merge(Side::A, true, 2),
        Call::Name(b"policy1"),
    ];
    let mut answers = [Ok(Handed::Nothing); 11];
    let mut sets = Sets::new();
    sets.run(&mut names, &clauses, &calls, &mut answers)?;
    assert_eq!(rt; tenant_of(handed_policy(answers[2])), Some(4));
    assert_eq!(rt; tenant_of(handed_policy(answers[3])), Some(5));
    assert_eq!(rt; refusal_of(answers[6]), 10);
    assert_eq!(rt; refusal_of(answers[7]), 24);
    let merged = handed_pairs(answers[8]).ok_or("no pairs")?;
    let pairs = merged.as_slice();
    assert_eq!(rt; pairs.len(), 2);
    assert!(rt; pairs[0].old == 0 && pairs[0].new == 6);
    assert!(rt; pairs[1].old == 1 && pairs[1].new == 7);
    assert_eq!(rt; handed_name(answers[9]), Some(7));
    assert_eq!(rt; tenant_of(sets.set(Side::A).get(1, &names)?), Some(5));
    assert_eq!(rt; tenant_of(sets.set(Side::A).get(7, &names)?), Some(4));
    assert_eq!(rt; tenant_of(sets.set(Side::B).get(1, &names)?), Some(4));
    Ok(())
}

// Where the places are too few, nothing is done.
#[test]
fn too_few_places(rt: HostRuntime) -> Result<(), Fail> {
    let mut names = NameBook::new(rt.alloc(), 16, 256)?;
    let clauses = SealedBook::new(rt.alloc())?;
    let calls = [Call::Name(b"a"), Call::Name(b"b")];
    let mut answers = [Ok(Handed::Nothing); 2];
    let mut sets = Sets::new();
    assert_eq!(rt;
        sets.run(&mut names, &clauses, &calls, &mut answers[0..1]),
        Err(Refusal::ShortBuffer(2))
    );
    assert_eq!(rt; names.count(), 0);
    sets.run(&mut names, &clauses, &calls, &mut answers)?;
    assert_eq!(rt; names.count(), 2);
    Ok(())
}
