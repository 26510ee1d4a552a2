use crate::book::ClauseBook;
use crate::sealed::book::SealedBook;
use crate::sealed::text::{constant_of_text, slots_of_text};
use crate::tree::book::TreeBook;
use crate::tree::node::{Node, Var};
use names::entity::EntityUID;
use names::kept::NameBook;
use refusals::refusal::Refusal;
use refusals::slots::SlotId;
use std::test::Fail;

#[test]
fn sealed_texts(rt: HostRuntime) {
    let table: [(&[u8], u8, Option<bool>); 14] = [
        (b"", 0, None),
        (b"true", 0, Some(true)),
        (b"false", 0, Some(false)),
        (b"true ", 0, None),
        (b"?principals", 0, None),
        (b"\"?principal\"", 0, None),
        (b"?resource == a", 2, None),
        (b"?principal", 1, None),
        (b"??principal", 1, None),
        (b"?principal\xc3\xa4", 1, None),
        (b"\"\\\"?principal\" ?resource", 2, None),
        (b"\"\\\\\"?principal", 1, None),
        (b"?principal && ?resource.id", 3, None),
        (b"\" ?principal", 0, None),
    ];
    for (text, bits, constant) in table {
        assert_eq!(rt; slots_of_text(text).bits, bits);
        assert_eq!(rt; constant_of_text(text), constant);
    }
}

#[test]
fn sealed_book(rt: HostRuntime) -> Result<(), Fail> {
    let long = [32; 513];
    let table: [(&[u8], Result<u16, Refusal>); 4] = [
        (b"?principal == a", Ok(0)),
        (b"true", Ok(1)),
        (&long, Err(Refusal::TooLong(513))),
        (b"?principal == a", Ok(2)),
    ];
    let mut book = SealedBook::new(rt.alloc())?;
    for (text, answer) in table {
        assert_eq!(rt; book.enter(text), answer);
    }
    assert!(rt; book.count() == 3 && book.slots(2).bits == 1 && book.slots(3).bits == 0);
    assert!(rt; book.same(0, 2) && !book.same(0, 1) && !book.same(3, 3));
    Ok(())
}

#[test]
fn tree_book(rt: HostRuntime) -> Result<(), Fail> {
    let mut names = NameBook::new(rt.alloc(), 4, 64)?;
    let ty = names.name(b"User")?;
    let bad = names.name(b"User::")?;
    let user = Node::Entity(EntityUID { ty, eid: bad });
    let principal = Node::Var(Var::Principal);
    let slot = Node::Slot(SlotId::Resource);
    let long = [slot; 65];
    let table: [(&[Node], Result<u16, Refusal>); 8] = [
        (&[Node::Lit(true)], Ok(0)),
        (&[], Err(Refusal::BadClause(0))),
        (
            &[principal, user, Node::Eq, Node::And],
            Err(Refusal::BadClause(3)),
        ),
        (&[principal, user], Err(Refusal::BadClause(2))),
        (&[Node::Is(bad), Node::Is(9)], Err(Refusal::UnknownName(9))),
        (&[Node::Is(bad)], Err(Refusal::BadTypeName(bad))),
        (&long, Err(Refusal::TooLong(65))),
        (
            &[
                principal,
                user,
                Node::Eq,
                principal,
                slot,
                Node::In,
                Node::And,
            ],
            Ok(1),
        ),
    ];
    let mut book = TreeBook::new(rt.alloc())?;
    for (nodes, answer) in table {
        assert_eq!(rt; book.enter(nodes, &names), answer);
    }
    assert!(rt;
        book.count() == 2 && book.slots(1).bits == 2 && book.same(1, 1) && !book.same(0, 1)
    );
    Ok(())
}
