ghost use Rattle.std.specs.Prelude.{◌≡◌, vec_items};
ghost use Rattle.std.specs.Option.{option_map};
ghost use Rattle.names.specs.Book.{texts as texts_of, limits as limits_of};
ghost use Rattle.console.specs.Actions.{entities as entities_meant, action_read as action_meant, in_brackets as in_brackets_meant, listed};
ghost use Rattle.console.specs.Reader.{ReadsAs};
ghost use Rattle.console.specs.Templates.{lent_list};

// The action scope of a line.
use crate::reader::Reader;
use crate::stop::{Stop, Wrong};
use names::entity::EntityUID;
use policy::action::ActionIn;
use policy::scope::ActionScope;
use script::parts::split_once;

// An action scope as it is written: a list may have any length.
pub type ActionWord = ActionIn<Vec<EntityUID>>;

// The scope, its list lent. No `From`: both types are the library's.
pub(crate) fn lent(action: &ActionWord) -> ActionScope<'_>
    ensures { lent_list result ≡ listed action.now }
{
    match action {
        ActionIn::Any => ActionIn::Any,
        ActionIn::Eq(e) => ActionIn::Eq(*e),
        ActionIn::In(list) => ActionIn::In(list.as_slice()),
    }
}

// The list of in:[LIST]
fn in_brackets(word: &[u8]) -> Option<&[u8]>
    ensures { option_map (λ list. list.now) result ≡ in_brackets_meant word.now }
{
    word.strip_prefix(b"in:[")?.strip_suffix(b"]")
}

impl Reader {
    // ENTITY,ENTITY,... and nothing for the empty list
    fn entities(&mut self, word: &[u8]) -> Result<Vec<EntityUID>, Stop>
        ensures entities { ReadsAs vec_items result (texts_of self.new.book) (entities_meant (limits_of self.old.book) (texts_of self.old.book) word.now) }
        ensures limits { limits_of self.new.book ≡ limits_of self.old.book }
    {
        let mut list = Vec::new(self.heap);
        if word.is_empty() {
            return Ok(list);
        }
        let mut rest = word;
        while let Some((part, behind)) = split_once(rest, b',') {
            list.push(self.entity(part)?)?;
            rest = behind;
        }
        list.push(self.entity(rest)?)?;
        Ok(list)
    }

    // any, eq:ENTITY, in:[ENTITY,ENTITY,...]
    pub(crate) fn action(&mut self, word: &[u8]) -> Result<ActionWord, Stop>
        ensures action { ReadsAs listed result (texts_of self.new.book) (action_meant (limits_of self.old.book) (texts_of self.old.book) word.now) }
        ensures limits { limits_of self.new.book ≡ limits_of self.old.book }
    {
        if word == b"any".as_slice() {
            return Ok(ActionIn::Any);
        }
        if let Some(rest) = word.strip_prefix(b"eq:") {
            return Ok(ActionIn::Eq(self.entity(rest)?));
        }
        let list = in_brackets(word).ok_or(Wrong::BadScope)?;
        Ok(ActionIn::In(self.entities(list)?))
    }
}
