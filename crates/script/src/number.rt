ghost use Rattle.std.specs.Prelude.{◌≡◌, ℕ, ◌≤◌, Some as Present, decimal};
ghost use Rattle.script.specs.Number.{one_more, continued, numeral, at_most};

// A number with a digit more; none where the byte is no digit or the number is above the bound.
fn with_digit(value: u32, byte: u8, most: u32) -> Option<u32>
    ensures { result ≡ at_most most (one_more (Present value) byte) }
{
    let digit = char::from(byte).to_digit(10)?;
    let next = value.checked_mul(10)?.checked_add(digit)?;
    (next <= most).then_some(next)
}

// The number of some decimal digits; none where a byte is no digit or the number is above the bound.
fn read_digits(digits: &[u8], most: u32) -> Option<u32>
    ensures { result ≡ at_most most (continued (Present 0) digits.now) }
{
    let mut value = 0;
    for byte in digits {
        value = with_digit(value, *byte, most)?;
    }
    Some(value)
}

// The number of a word of decimal digits; none where it is no number or above the bound.
pub fn read_number(word: &[u8], most: u32) -> Option<u32>
    ensures number { result ≡ at_most most (numeral word.now) }
    ensures reads_back { (n : ℕ) → n ≤ most → word.now ≡ decimal n → result ≡ Present n }
{
    if word.is_empty() {
        return None;
    }
    read_digits(word, most)
}
