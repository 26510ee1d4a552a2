ghost use Rattle.std.specs.Prelude.{◌≡◌, ◌<◌, ◌++◌, IfOk, Some as Present, string_bytes, OnOk};
ghost use Rattle.script.specs.Percent.{plain, hex_digit, written, encoded, decoded};

use std::alloc::{AllocError, Global};

// How a text's colons are written.
#[derive(Clone, Copy)]
pub enum Colon {
    // Encoded.
    Coded,
    // As they are, in a type.
    Plain,
}

// Whether a byte stands for itself where a text is written.
fn is_plain(byte: u8, colon: Colon) -> bool
    ensures { result ≡ plain colon byte }
{
    matches!(
        (byte, colon),
        (b'a'..=b'z' | b'A'..=b'Z' | b'0'..=b'9' | b'_' | b'.', _) | (b':', Colon::Plain)
    )
}

// The hexadecimal digit of a value below 16, a capital one above 9.
fn hex_digit(value: u8) -> u8
    requires { value < 16 }
    ensures { result ≡ hex_digit value }
{
    if value < 10 {
        b'0' + value
    } else {
        b'A' + (value - 10)
    }
}

// Writes a byte behind a word, as it is or as two capital hexadecimal digits. The digits are written out, since `write!`
// takes more than twice the time, and names of other letters than ASCII have nothing else.
fn push_byte(word: &mut String, byte: u8, colon: Colon) -> Result<(), AllocError>
    ensures { OnOk result (string_bytes word.new ≡ string_bytes word.old ++ written colon byte) }
{
    if is_plain(byte, colon) {
        return word.push(char::from(byte));
    }
    word.push('%')?;
    word.push(char::from(hex_digit(byte / 16)))?;
    word.push(char::from(hex_digit(byte % 16)))
}

// A text as one word.
pub fn encode(heap: Global, text: &[u8], colon: Colon) -> Result<String, AllocError>
    ensures word { IfOk result (λ word. string_bytes word ≡ encoded colon text.now) }
    ensures reads_back { IfOk result (λ word. decoded (string_bytes word) ≡ Present text.now) }
{
    if text.is_empty() {
        return String::from_str(heap, "%");
    }
    let mut word = String::new(heap);
    for byte in text {
        push_byte(&mut word, *byte, colon)?;
    }
    Ok(word)
}
