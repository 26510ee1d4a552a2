ghost use Rattle.std.specs.Prelude.{◌≡◌};
ghost use Rattle.script.specs.Parts.{split_once};
ghost use Rattle.script.specs.PartsLent.{lent_parts};

// What stands before the first such byte of a word, and what stands after it; none where the word lacks the byte.
pub fn split_once(word: &[u8], byte: u8) -> Option<(&[u8], &[u8])>
    ensures { lent_parts result ≡ split_once byte word.now }
{
    let i = word.iter().position(|b| *b == byte)?;
    Some((&word[..i], &word[i + 1..]))
}
