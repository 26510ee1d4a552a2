ghost use Rattle.std.specs.Prelude.{◌≡◌, ◌<◌, length, drop, IfOk, Some as Present, None as Absent, vec_items, MatchOption};
ghost use Rattle.std.specs.Option.{option_map};
ghost use Rattle.script.specs.Percent.{hex_value, hex_byte, put, spelled, decoded};

use std::alloc::{AllocError, Global};

// The value of a hexadecimal digit, capital or small.
fn hex_value(digit: u8) -> Option<u8>
    ensures { result ≡ hex_value digit }
{
    let value = char::from(digit).to_digit(16)?;
    Some(value as u8)
}

// The byte that two hexadecimal digits give.
fn hex_byte(high: u8, low: u8) -> Option<u8>
    ensures { result ≡ hex_byte (hex_value high) (hex_value low) }
{
    Some(16 * hex_value(high)? + hex_value(low)?)
}

// The first byte that a word spells, and the rest of the word; none where it is spelled wrong or empty.
fn first_byte(word: &[u8]) -> Option<(u8, &[u8])>
    ensures { MatchOption result (0 < length word.now → spelled word.now ≡ Absent) (λ first. (spelled word.now ≡ put (Present first.0) (spelled first.1.now)) × (length first.1.now < length word.now)) }
{
    match word {
        [b'%', high, low, rest @ ..] => Some((hex_byte(*high, *low)?, rest)),
        [] | [b'%', ..] => None,
        [byte, rest @ ..] => Some((*byte, rest)),
    }
}

// The bytes that a word spells; none where its spelling is broken.
fn spell(heap: Global, word: &[u8]) -> Result<Option<Vec<u8>>, AllocError>
    ensures { IfOk result (λ text. option_map vec_items text ≡ spelled word.now) }
{
    let mut text = Vec::new(heap);
    let mut rest = word;
    // Each step takes one byte of the word or three, so the rest is carried and no iterator over the bytes serves.
    while let Some((byte, tail)) = first_byte(rest) {
        text.push(byte)?;
        rest = tail;
    }
    Ok(rest.is_empty().then_some(text))
}

// The text of a word; none where the word breaks the encoding: the crate `percent_encoding` would let such a word pass.
pub fn decode(heap: Global, word: &[u8]) -> Result<Option<Vec<u8>>, AllocError>
    ensures { IfOk result (λ text. option_map vec_items text ≡ decoded word.now) }
{
    match word {
        [] => Ok(None),
        [b'%'] => Ok(Some(Vec::new(heap))),
        _ => spell(heap, word),
    }
}
