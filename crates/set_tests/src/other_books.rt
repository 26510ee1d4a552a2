use crate::samples::{ANY, Books, SLOT, filled, principal, template};
use names::entity::EntityUID;
use policy::bound::Policy;
use policy::constraint::{EntityReference, PrincipalOrResourceConstraint};
use policy::fixed::StaticPolicy;
use policy::template::Template;
use policy_set::rows::Renaming;
use policy_set::set::PolicySet;
use refusals::refusal::Refusal;
use std::test::Fail;

// A template, a static policy and a link of the template, each with the first clause.
fn records(home: &Books) -> Result<(Template, StaticPolicy, Policy), Refusal> {
    let t = template(home, 0, SLOT, Some(0))?;
    let s = StaticPolicy::new(template(home, 1, ANY, Some(0))?, &home.names, &home.clauses)?;
    let link = t.link(
        1,
        principal(EntityUID { ty: 0, eid: 0 }),
        &home.names,
        &home.clauses,
    )?;
    Ok((t, s, link))
}

#[test]
fn names_of_another_book(rt: HostRuntime) -> Result<(), Fail> {
    let home = filled(rt.alloc(), &[b"t", b"s"], &[])?;
    let away = filled(rt.alloc(), &[b"t"], &[])?;
    let t = template(&home, 1, SLOT, None)?;
    let s = StaticPolicy::new(template(&home, 1, ANY, None)?, &home.names, &home.clauses)?;
    let link = template(&home, 0, SLOT, None)?.link(
        1,
        principal(EntityUID { ty: 0, eid: 0 }),
        &home.names,
        &home.clauses,
    )?;
    let mut set = PolicySet::new();
    assert_eq!(rt;
        set.add_template(t, &away.names, &away.clauses).err(),
        Some(Refusal::UnknownName(1))
    );
    assert_eq!(rt;
        set.add_static(s, &away.names, &away.clauses).err(),
        Some(Refusal::UnknownName(1))
    );
    assert_eq!(rt;
        set.add(link, &away.names, &away.clauses).err(),
        Some(Refusal::UnknownName(1))
    );
    assert!(rt; set.is_empty());
    Ok(())
}

#[test]
fn numbers_of_another_book(rt: HostRuntime) -> Result<(), Fail> {
    let home = filled(rt.alloc(), &[b"t", b"s"], &[])?;
    let away = filled(rt.alloc(), &[b"t"], &[])?;
    let mut set = PolicySet::new();
    set.add_template(template(&home, 0, SLOT, None)?, &home.names, &home.clauses)?;
    let known = principal(EntityUID { ty: 0, eid: 0 });
    let unknown = principal(EntityUID { ty: 0, eid: 2 });
    assert_eq!(rt;
        set.link(1, 0, known, &away.names).err(),
        Some(Refusal::UnknownName(1))
    );
    assert_eq!(rt;
        set.link(0, 1, known, &away.names).err(),
        Some(Refusal::UnknownName(1))
    );
    assert_eq!(rt;
        set.link(0, 0, unknown, &away.names).err(),
        Some(Refusal::UnknownName(2))
    );
    assert_eq!(rt;
        set.unlink(1, &away.names).err(),
        Some(Refusal::UnknownName(1))
    );
    assert_eq!(rt;
        set.remove_static(1, &away.names).err(),
        Some(Refusal::UnknownName(1))
    );
    assert_eq!(rt;
        set.remove_template(1, &away.names).err(),
        Some(Refusal::UnknownName(1))
    );
    assert_eq!(rt;
        set.get(1, &away.names).err(),
        Some(Refusal::UnknownName(1))
    );
    assert_eq!(rt;
        set.get_template(1, &away.names).err(),
        Some(Refusal::UnknownName(1))
    );
    assert_eq!(rt;
        set.get_linked_policies(1, 0, &away.names).err(),
        Some(Refusal::UnknownName(1))
    );
    Ok(())
}

#[test]
fn clauses_of_another_book(rt: HostRuntime) -> Result<(), Fail> {
    let home = filled(rt.alloc(), &[b"t", b"s"], &[b"context.a"])?;
    let away = filled(rt.alloc(), &[b"t", b"s"], &[])?;
    let (t, s, link) = records(&home)?;
    let mut set = PolicySet::new();
    assert_eq!(rt;
        set.add_template(t, &away.names, &away.clauses).err(),
        Some(Refusal::UnknownClause(0))
    );
    assert_eq!(rt;
        set.add_static(s, &away.names, &away.clauses).err(),
        Some(Refusal::UnknownClause(0))
    );
    assert_eq!(rt;
        set.add(link, &away.names, &away.clauses).err(),
        Some(Refusal::UnknownClause(0))
    );
    assert!(rt; set.is_empty());
    Ok(())
}

#[test]
fn slots_of_another_book(rt: HostRuntime) -> Result<(), Fail> {
    let home = filled(rt.alloc(), &[b"t", b"s"], &[b"context.a"])?;
    let away = filled(rt.alloc(), &[b"t", b"s"], &[b"?resource == a"])?;
    let (t, s, link) = records(&home)?;
    let mut set = PolicySet::new();
    assert_eq!(rt;
        set.add_template(t, &away.names, &away.clauses).err(),
        Some(Refusal::SlotCacheMismatch(0))
    );
    assert_eq!(rt;
        set.add_static(s, &away.names, &away.clauses).err(),
        Some(Refusal::SlotCacheMismatch(1))
    );
    assert_eq!(rt;
        set.add(link, &away.names, &away.clauses).err(),
        Some(Refusal::SlotCacheMismatch(0))
    );
    assert!(rt; set.is_empty());
    Ok(())
}

// The number that every absent text would get is bound in the live set: a merge is refused with 4.
#[test]
fn merging_sets_of_another_book(rt: HostRuntime) -> Result<(), Fail> {
    let home = filled(rt.alloc(), &[b"t", b"u"], &[])?;
    let mut away = filled(rt.alloc(), &[b"t"], &[])?;
    let mut live = PolicySet::new();
    let mut incoming = PolicySet::new();
    live.add_template(template(&home, 0, SLOT, None)?, &home.names, &home.clauses)?;
    live.add_template(template(&home, 1, SLOT, None)?, &home.names, &home.clauses)?;
    let other = PrincipalOrResourceConstraint::In(EntityReference::Slot);
    incoming.add_template(template(&home, 0, other, None)?, &home.names, &home.clauses)?;
    let mut pairs = [Renaming { old: 0, new: 0 }; 4];
    let answer = live.merge_policyset(&incoming, &mut away.names, &away.clauses, true, &mut pairs);
    assert_eq!(rt; answer.err(), Some(Refusal::BookFull));
    Ok(())
}
