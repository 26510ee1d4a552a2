use crate::decode::decode;
use crate::encode::{Colon, encode};
use crate::number::read_number;
use crate::words::Words;
use std::test::Fail;

#[test]
fn words_of_a_line(rt: HostRuntime) {
    let mut words = Words::new(b" \tname  bob%40example.org\r");
    assert_eq!(rt; words.next(), Some(b"name".as_slice()));
    assert_eq!(rt; words.next(), Some(b"bob%40example.org".as_slice()));
    assert_eq!(rt; words.next(), None);
}

#[test]
fn decoded_words(rt: HostRuntime) -> Result<(), Fail> {
    let text = decode(rt.alloc(), b"bob%40ex%c3%BC")?.ok_or("a text")?;
    assert_eq!(rt; text.as_slice(), b"bob@ex\xC3\xBC".as_slice());
    assert!(rt; decode(rt.alloc(), b"bob%4")?.is_none());
    assert!(rt; decode(rt.alloc(), b"%zz")?.is_none());
    assert!(rt; decode(rt.alloc(), b"%")?.is_some());
    Ok(())
}

#[test]
fn encoded_texts(rt: HostRuntime) -> Result<(), Fail> {
    assert_eq!(rt;
        encode(rt.alloc(), b"a:b_c.d e\xFF", Colon::Coded)?.as_str(),
        "a%3Ab_c.d%20e%FF"
    );
    assert_eq!(rt;
        encode(rt.alloc(), b"N::User", Colon::Plain)?.as_str(),
        "N::User"
    );
    assert_eq!(rt; encode(rt.alloc(), b"", Colon::Coded)?.as_str(), "%");
    Ok(())
}

#[test]
fn decimal_numbers(rt: HostRuntime) {
    assert_eq!(rt; read_number(b"0065535", 65535), Some(65535));
    assert_eq!(rt; read_number(b"65536", 65535), None);
    assert_eq!(rt; read_number(b"18446744073709551616", 65535), None);
    assert_eq!(rt; read_number(b"-1", 65535), None);
}
