ghost use Rattle.std.specs.Prelude.{◌≡◌, length, is_ok, Decides};
ghost use Rattle.names.specs.Book.{texts};
ghost use Rattle.clauses.specs.NameChecks.{name_check, type_check, Typed};

use names::kept::NameBook;
use refusals::NameNumber;
use refusals::refusal::Refusal;

// Refusal 1 unless the name is below the count of a book.
pub fn known_name(count: usize, name: NameNumber) -> Result<(), Refusal>
    ensures { result ≡ name_check count name }
{
    if (name as usize) < count {
        Ok(())
    } else {
        Err(Refusal::UnknownName(name))
    }
}

// Refusal 1 unless the name is one of the book's.
pub fn check_name(names: &NameBook, name: NameNumber) -> Result<(), Refusal>
    ensures { result ≡ name_check (length (texts names.now)) name }
{
    known_name(names.count(), name)
}

// Refusal 5 unless the name has a text that is a type name.
pub fn check_type(names: &NameBook, name: NameNumber) -> Result<(), Refusal>
    ensures answer { result ≡ type_check (texts names.now) name }
    ensures typed { Decides (is_ok result) (Typed (texts names.now) name) }
{
    if names.is_type_name(name).unwrap_or(false) {
        Ok(())
    } else {
        Err(Refusal::BadTypeName(name))
    }
}
