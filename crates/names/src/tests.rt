use crate::book::{LONGEST, PLACES, ROOM};
use crate::keeper::Pieces;
use crate::kept::NameBook;
use crate::type_name::is_type_name;
use refusals::refusal::Refusal;
use std::test::Fail;

#[test]
fn lengths(rt: HostRuntime) -> Result<(), Fail> {
    let mut book = NameBook::new(rt.alloc(), PLACES, ROOM)?;
    let text = [b'a'; 65];
    assert_eq!(rt; book.name(&text[0..0]), Ok(0));
    assert_eq!(rt; book.name(&text[0..LONGEST]), Ok(1));
    assert_eq!(rt; book.name(&text), Err(Refusal::TooLong(65)));
    assert_eq!(rt; book.name(&text[0..0]), Ok(0));
    assert!(rt; book.text(1)?.len() == 64);
    assert_eq!(rt; book.is_action(2), Err(Refusal::UnknownName(2)));
    assert_eq!(rt; book.count(), 2);
    Ok(())
}

// The last of 1,024 names of 64 bytes is one byte too many; a shorter one still fits.
#[test]
fn last_place_and_last_byte(rt: HostRuntime) -> Result<(), Fail> {
    let mut book = NameBook::new(rt.alloc(), 2000, 70000)?;
    for i in 0..1023u32 {
        let mut text = [b'x'; 64];
        text[0] = (i % 256) as u8;
        text[1] = (i / 256) as u8;
        assert_eq!(rt; book.name(&text), Ok((i % 1024) as u16));
    }
    assert_eq!(rt; book.name(&[b'y'; 64]), Err(Refusal::BookFull));
    assert_eq!(rt; book.name(&[b'z'; 63]), Ok(1023));
    assert_eq!(rt; book.name(b""), Err(Refusal::BookFull));
    Ok(())
}

#[test]
fn types_and_actions(rt: HostRuntime) -> Result<(), Fail> {
    assert!(rt; is_type_name(b"Vault::Secret_1"));
    assert!(rt; is_type_name(b"_"));
    assert!(rt; !is_type_name(b""));
    assert!(rt; !is_type_name(b"A::"));
    assert!(rt; !is_type_name(b"A:B"));
    assert!(rt; !is_type_name(b"A:::B"));
    assert!(rt; !is_type_name(b"1a"));
    let mut book = NameBook::new(rt.alloc(), 3, 40)?;
    assert_eq!(rt; book.name(b"Vault::Action"), Ok(0));
    assert_eq!(rt; book.name(b"Action::Vault"), Ok(1));
    assert_eq!(rt; book.is_action(0), Ok(true));
    assert_eq!(rt; book.is_action(1), Ok(false));
    Ok(())
}

// Two places and three items: the room is there from the start, and the rest of it is told.
#[test]
fn pieces_end_to_end(rt: HostRuntime) -> Result<(), Fail> {
    let mut pieces = Pieces::new(rt.alloc(), 2, 3)?;
    assert_eq!(rt; pieces.enter(b"ab"), Ok(0));
    assert_eq!(rt; pieces.enter(b"cd"), Err(Refusal::BookFull));
    assert_eq!(rt; pieces.count(), 1);
    assert_eq!(rt; pieces.get(0), Some(b"ab".as_slice()));
    assert_eq!(rt; pieces.get(1), None);
    assert!(rt; pieces.has_room_for(1, 1) && !pieces.has_room_for(1, 2));
    Ok(())
}
