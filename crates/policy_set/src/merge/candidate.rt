// The texts that are tried as new names: `policy` and a decimal number.
ghost use Rattle.std.specs.Prelude.{◌≡◌, ◌+◌, ◌≤◌, ◌++◌, length, decimal};
ghost use Rattle.arrayvec.specs.ArrayString.{array_string_len};
ghost use Rattle.policy_set.specs.Choice.{candidate};

use arrayvec::ArrayString;

// Enough bytes for `policy` and ten digits.
const LONGEST: usize = 16;

// A counter's text.
pub(crate) type Text = ArrayString<LONGEST>;

// Appends the decimal digits of a number. `write!` would do it too, but `write_fmt` promises no `Ok` where the text has room.
fn push_decimal(text: &mut Text, n: u32)
    requires { array_string_len text.old + length (decimal n) ≤ 16 }
    ensures { text.new.bytes ≡ text.old.bytes ++ decimal n }
{
    if n >= 10 {
        push_decimal(text, n / 10);
    }
    text.push(char::from(b'0' + (n % 10) as u8));
}

// The text of a counter.
pub(crate) fn text_of(counter: u32) -> Text
    ensures value { result.bytes ≡ candidate counter }
    ensures short { array_string_len result ≤ 16 }
{
    let mut text = Text::new();
    text.push_str("policy");
    push_decimal(&mut text, counter);
    text
}
