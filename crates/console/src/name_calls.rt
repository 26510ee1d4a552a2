ghost use Rattle.std.specs.Prelude.{◌≡◌, IfOk, string_bytes};
ghost use Rattle.console.specs.Args.{left, rest, Reads};
ghost use Rattle.names.specs.Book.{texts as texts_of, limits as limits_of};
ghost use Rattle.console.specs.Asked.{name_word, argued, name_call, meant, Asks};
ghost use Rattle.console.specs.Naming.{Answers, texts_after, yes_word};

use crate::args::Args;
use crate::stop::Stop;
use names::kept::NameBook;
use names::type_name::is_type_name;
use refusals::NameNumber;
use script::encode::{Colon, encode};
use std::alloc::{AllocError, Global};

// The first word of a call on names.
#[derive(Clone, Copy)]
pub enum NameWord {
    Name,
    Text,
    Type,
    Action,
}

// A call on names.
#[derive(Drop)]
pub enum NameCall {
    Name(Vec<u8>),
    Text(NameNumber),
    Type(Vec<u8>),
    Action(Vec<u8>),
}

impl NameWord {
    // The call that a line's first word names; none where it is no call on names.
    pub fn of(head: &[u8]) -> Option<NameWord>
        ensures { result ≡ name_word head.now }
    {
        match head {
            b"name" => Some(NameWord::Name),
            b"text" => Some(NameWord::Text),
            b"type" => Some(NameWord::Type),
            b"action" => Some(NameWord::Action),
            _ => None,
        }
    }

    // Reads the argument of the call.
    fn argument(self, args: &mut Args) -> Result<NameCall, Stop>
        ensures call { Reads meant result (argued self (left args.old)) }
        ensures rest { left args.new ≡ rest (left args.old) }
    {
        Ok(match self {
            NameWord::Name => NameCall::Name(args.text()?),
            NameWord::Text => NameCall::Text(args.name_number()?),
            NameWord::Type => NameCall::Type(args.text()?),
            NameWord::Action => NameCall::Action(args.text()?),
        })
    }

    // Reads the call, to the end of the line.
    pub fn read(self, args: &mut Args) -> Result<NameCall, Stop>
        ensures { Asks result (name_call self (left args.old)) }
    {
        let call = self.argument(args)?;
        args.end()?;
        Ok(call)
    }
}

// The word of a yes or a no.
fn yes_or_no(heap: Global, yes: bool) -> Result<String, AllocError>
    ensures { IfOk result (λ word. string_bytes word ≡ yes_word yes) }
{
    String::from_str(heap, if yes { "yes" } else { "no" })
}

impl NameCall {
    // Makes the call, and answers as it is printed.
    pub fn make(self, heap: Global, book: &mut NameBook) -> Result<String, Stop>
        ensures answer { Answers (limits_of book.old) (texts_of book.old) (meant self) result }
        ensures after { texts_of book.new ≡ texts_after (limits_of book.old) (texts_of book.old) (meant self) }
        ensures limits { limits_of book.new ≡ limits_of book.old }
    {
        match self {
            NameCall::Name(text) => {
                let number = book.name(text.as_slice())?;
                Ok(format!(in heap; "name {number}")?)
            }
            NameCall::Text(number) => {
                let text = book.text(number)?;
                let text = encode(heap, text, Colon::Coded)?;
                Ok(format!(in heap; "text {text}")?)
            }
            NameCall::Type(text) => Ok(yes_or_no(heap, is_type_name(text.as_slice()))?),
            NameCall::Action(text) => {
                let number = book.name(text.as_slice())?;
                Ok(yes_or_no(heap, book.is_action(number)?)?)
            }
        }
    }
}
