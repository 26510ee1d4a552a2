ghost use Rattle.std.specs.Prelude.{◌≡◌, ◌∷◌, ◌++◌, IfOk, string_bytes, decimal, OnOk};
ghost use Rattle.names.specs.Book.{texts as texts_of};
ghost use Rattle.printing.specs.Print.{id_word, name_text};

// Words, numbers and names behind a line.
use names::kept::NameBook;
use refusals::NameNumber;
use script::encode::{Colon, encode};
use std::alloc::{AllocError, Global};
use std::fmt::Write;

// Puts a space and a word behind a line.
pub fn push_word(line: &mut String, word: &str) -> Result<(), AllocError>
    ensures { OnOk result (string_bytes line.new ≡ string_bytes line.old ++ (32 ∷ word.now)) }
{
    write!(line, " {word}")
}

// Puts a space and a number behind a line.
pub fn push_number(line: &mut String, number: usize) -> Result<(), AllocError>
    ensures { OnOk result (string_bytes line.new ≡ string_bytes line.old ++ (32 ∷ decimal number)) }
{
    write!(line, " {number}")
}

// The text of a name as it is printed, or its number where the book lacks it: no `Display`, which could not read the book.
pub fn name_text(
    heap: Global,
    book: &NameBook,
    number: NameNumber,
    colon: Colon,
) -> Result<String, AllocError>
    ensures { IfOk result (λ text. string_bytes text ≡ name_text (texts_of book.now) colon number) }
{
    match book.text(number) {
        Ok(text) => encode(heap, text, colon),
        Err(unknown) => unknown.number.to_string(heap),
    }
}

// Puts a space and the text of an id behind a line.
pub fn push_id(line: &mut String, book: &NameBook, id: NameNumber) -> Result<(), AllocError>
    ensures { OnOk result (string_bytes line.new ≡ string_bytes line.old ++ (32 ∷ id_word (texts_of book.now) id)) }
{
    let word = name_text(*line.allocator(), book, id, Colon::Coded)?;
    push_word(line, word.as_str())
}
