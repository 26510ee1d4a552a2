use crate::samples::{SLOT, filled, template};
use crate::tenants::{leave, pass_on};
use names::entity::EntityUID;
use policy::values::SlotEnv;
use policy_set::set::PolicySet;
use refusals::refusal::Refusal;
use std::test::Fail;

// Name 0 is a template and the type of the tenants, 1 and 2 are their servers, 3 and 4 the tenants.
const FORMER: SlotEnv = SlotEnv {
    principal: Some(EntityUID { ty: 0, eid: 3 }),
    resource: None,
};

const NEXT: SlotEnv = SlotEnv {
    principal: Some(EntityUID { ty: 0, eid: 4 }),
    resource: None,
};

#[test]
fn a_server_passes_on(rt: HostRuntime) -> Result<(), Fail> {
    let books = filled(rt.alloc(), &[b"t", b"s1", b"s2", b"a", b"b"], &[])?;
    let mut set = PolicySet::new();
    set.add_template(
        template(&books, 0, SLOT, None)?,
        &books.names,
        &books.clauses,
    )?;
    let _ = set.link(0, 1, FORMER, &books.names)?;
    let _ = set.link(0, 2, FORMER, &books.names)?;
    let found = pass_on(&mut set, 1, 0, NEXT, &books.names)?;
    assert_eq!(rt; found.map(|policy| policy.values), Some(NEXT));
    assert!(rt; leave(&mut set, 2, &books.names)?.is_none());
    assert_eq!(rt;
        leave(&mut set, 2, &books.names).err(),
        Some(Refusal::UnlinkingError(2))
    );
    assert_eq!(rt;
        pass_on(&mut set, 2, 0, NEXT, &books.names).err(),
        Some(Refusal::UnlinkingError(2))
    );
    assert_eq!(rt;
        leave(&mut set, 0, &books.names).err(),
        Some(Refusal::NotLinkError(0))
    );
    let left = set.get(1, &books.names)?;
    assert_eq!(rt; left.map(|policy| policy.values), Some(NEXT));
    Ok(())
}
