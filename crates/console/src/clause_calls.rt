ghost use Rattle.std.specs.Prelude.{◌≡◌, false, [], None as Absent, IfOk, vec_items, string_bytes};
ghost use Rattle.std.specs.Option.{option_and_then};
ghost use Rattle.names.specs.Book.{texts as texts_of, limits as limits_of};
ghost use Rattle.clauses.specs.SealedBooks.{texts as sealed_of};
ghost use Rattle.clauses.specs.TreeBooks.{trees as trees_of};
ghost use Rattle.calls.specs.Meaning.{state_of};
ghost use Rattle.console.specs.ClauseLines.{sealed_line, TreeLine};
ghost use Rattle.console.specs.Lines.{clause_word};
ghost use Rattle.console.specs.Nodes.{plain_node as plain_node_meant, node_of, nodes as nodes_meant};
ghost use Rattle.console.specs.Reader.{ReadsInto, ReadsAs};
ghost use Rattle.console.specs.Args.{left, rest, next_word, side_of};
ghost use Rattle.console.specs.SetLines.{OnSet, closed_after};
ghost use Rattle.console.specs.Settling.{settled, kind_after};
ghost use Rattle.console.specs.TemplateLines.{ConditionOn, BindingOn};
ghost use Rattle.console.specs.declared.clause_calls.Kind.TheVariants.{Sealed as KindSealed, Trees as KindTrees};

// Lines that enter clauses: sealed texts or trees, never both.
use crate::args::Args;
use crate::reader::{Reader, side};
use crate::set_calls::SetWord;
use crate::stop::{Stop, Wrong};
use calls::sets::Sets;
use clauses::sealed::book::SealedBook;
use clauses::tree::book::TreeBook;
use clauses::tree::node::{Node, Var};
use refusals::slots::SlotId;
use std::alloc::{AllocError, Global};

// The clause books of which a script uses one.
#[derive(Clone, Copy, PartialEq, Eq)]
pub enum Kind {
    Sealed,
    Trees,
}

// Both books are there from the start, so that no line can fail for their memory; the kind says which one is used.
#[derive(Drop)]
pub struct Clauses {
    sealed: SealedBook,
    trees: TreeBook,
    // None before the first line that enters a clause.
    kind: Option<Kind>,
    // Whether a line has named a set, behind which no clause comes.
    closed: bool,
}

// The first word of a line on clauses or on a template.
#[derive(Clone, Copy)]
pub enum ClauseWord {
    Clause,
    Tree,
    Condition,
    Binding,
}

impl ClauseWord {
    // What a line's first word does with clauses; none where it does nothing with them.
    pub(crate) fn of(head: &[u8]) -> Option<ClauseWord>
        ensures { result ≡ clause_word head.now }
    {
        match head {
            b"clause" => Some(ClauseWord::Clause),
            b"tree" => Some(ClauseWord::Tree),
            b"condition" => Some(ClauseWord::Condition),
            b"binding" => Some(ClauseWord::Binding),
            _ => None,
        }
    }
}

// The node that a word is by itself: the words are the console's format and not the library's, so they are no `TryFrom` of `Node`
fn plain_node(word: &[u8]) -> Option<Node>
    ensures { result ≡ plain_node_meant word.now }
{
    Some(match word {
        b"true" => Node::Lit(true),
        b"false" => Node::Lit(false),
        b"principal" => Node::Var(Var::Principal),
        b"action" => Node::Var(Var::Action),
        b"resource" => Node::Var(Var::Resource),
        b"?principal" => Node::Slot(SlotId::Principal),
        b"?resource" => Node::Slot(SlotId::Resource),
        b"not" => Node::Not,
        b"and" => Node::And,
        b"or" => Node::Or,
        b"eq" => Node::Eq,
        b"in" => Node::In,
        _ => return None,
    })
}

impl Reader {
    // A node of a tree line.
    fn node(&mut self, word: &[u8]) -> Result<Node, Stop>
        ensures node { ReadsInto result (texts_of self.new.book) (node_of (limits_of self.old.book) (texts_of self.old.book) word.now) }
        ensures limits { limits_of self.new.book ≡ limits_of self.old.book }
    {
        if let Some(rest) = word.strip_prefix(b"entity:") {
            return Ok(Node::Entity(self.entity(rest)?));
        }
        if let Some(rest) = word.strip_prefix(b"is:") {
            return Ok(Node::Is(self.name(rest)?));
        }
        Ok(plain_node(word).ok_or(Wrong::BadNode)?)
    }

    // All nodes of a tree line.
    fn nodes(&mut self, args: &mut Args) -> Result<Vec<Node>, Stop>
        ensures nodes { ReadsAs vec_items result (texts_of self.new.book) (nodes_meant (limits_of self.old.book) (texts_of self.old.book) (left args.old)) }
        ensures limits { limits_of self.new.book ≡ limits_of self.old.book }
    {
        let mut list = Vec::new(self.heap);
        for word in args {
            list.push(self.node(word)?)?;
        }
        Ok(list)
    }
}

impl Clauses {
    // Two empty books.
    pub(crate) fn new(heap: Global) -> Result<Clauses, AllocError>
        ensures { IfOk result (λ clauses. (clauses.kind ≡ Absent) × (clauses.closed ≡ false) × (sealed_of clauses.sealed ≡ []) × (trees_of clauses.trees ≡ [])) }
    {
        let sealed = SealedBook::new(heap)?;
        let trees = TreeBook::new(heap)?;
        Ok(Clauses {
            sealed,
            trees,
            kind: None,
            closed: false,
        })
    }

    // The first line that enters a clause says which book the script stands on, even where it is refused or an error.
    fn settle(&mut self, kind: Kind) -> Result<(), Wrong>
        ensures answer { result ≡ settled self.old.closed self.old.kind kind }
        ensures kind { self.new.kind ≡ kind_after self.old.closed self.old.kind kind }
        ensures closed { self.new.closed ≡ self.old.closed }
        ensures sealed { self.new.sealed ≡ self.old.sealed }
        ensures trees { self.new.trees ≡ self.old.trees }
    {
        if self.closed {
            return Err(Wrong::LateClause);
        }
        if *self.kind.get_or_insert(kind) == kind {
            Ok(())
        } else {
            Err(Wrong::OtherBook)
        }
    }

    // `clause TEXT`
    pub(crate) fn clause(&mut self, heap: Global, args: &mut Args) -> Result<String, Stop>
        ensures line { ReadsAs string_bytes result (sealed_of self.new.sealed) (sealed_line (settled self.old.closed self.old.kind KindSealed) (sealed_of self.old.sealed) (left args.old)) }
        ensures kind { self.new.kind ≡ kind_after self.old.closed self.old.kind KindSealed }
        ensures closed { self.new.closed ≡ self.old.closed }
        ensures trees { self.new.trees ≡ self.old.trees }
    {
        self.settle(Kind::Sealed)?;
        let text = args.text()?;
        args.end()?;
        let number = self.sealed.enter(text.as_slice())?;
        Ok(format!(in heap; "clause {number}")?)
    }

    // `tree NODE ...`
    pub(crate) fn tree(&mut self, reader: &mut Reader, args: &mut Args) -> Result<String, Stop>
        ensures line { TreeLine (settled self.old.closed self.old.kind KindTrees) (limits_of reader.old.book) (texts_of reader.old.book) (trees_of self.old.trees) (left args.old) result (texts_of reader.new.book) (trees_of self.new.trees) }
        ensures limits { limits_of reader.new.book ≡ limits_of reader.old.book }
        ensures kind { self.new.kind ≡ kind_after self.old.closed self.old.kind KindTrees }
        ensures closed { self.new.closed ≡ self.old.closed }
        ensures sealed { self.new.sealed ≡ self.old.sealed }
    {
        self.settle(Kind::Trees)?;
        let nodes = reader.nodes(args)?;
        let number = self.trees.enter(nodes.as_slice(), &reader.book)?;
        Ok(format!(in reader.heap; "clause {number}")?)
    }

    // `condition BODY [ROOM]`, on the book that the script stands on.
    pub(crate) fn condition(&self, reader: &mut Reader, args: &mut Args) -> Result<String, Stop>
        ensures line { ConditionOn self.now self.now.kind (limits_of reader.old.book) (texts_of reader.old.book) (left args.old) result (texts_of reader.new.book) }
        ensures limits { limits_of reader.new.book ≡ limits_of reader.old.book }
    {
        // A match here and in `binding`: the books differ in type, and no closure is generic over a type.
        match self.kind {
            Some(Kind::Trees) => reader.condition(args, &self.trees),
            Some(Kind::Sealed) | None => reader.condition(args, &self.sealed),
        }
    }

    // `binding BODY PV RV`, likewise.
    pub(crate) fn binding(&self, reader: &mut Reader, args: &mut Args) -> Result<String, Stop>
        ensures line { BindingOn self.now self.now.kind (limits_of reader.old.book) (texts_of reader.old.book) (left args.old) result (texts_of reader.new.book) }
        ensures limits { limits_of reader.new.book ≡ limits_of reader.old.book }
    {
        match self.kind {
            Some(Kind::Trees) => reader.binding(args, &self.trees),
            Some(Kind::Sealed) | None => reader.binding(args, &self.sealed),
        }
    }

    // A line on a set, likewise: its first word is read, and the next one names the set.
    pub(crate) fn set_line(
        &mut self,
        first: SetWord,
        reader: &mut Reader,
        args: &mut Args,
        sets: &mut Sets,
    ) -> Result<String, Stop>
        ensures line { OnSet self.old (limits_of reader.old.book) (state_of sets.old reader.old.book) first (option_and_then side_of (next_word (left args.old))) (rest (left args.old)) result (state_of sets.new reader.new.book) }
        ensures limits { limits_of reader.new.book ≡ limits_of reader.old.book }
        ensures closed { self.new.closed ≡ closed_after self.old.closed (option_and_then side_of (next_word (left args.old))) }
        ensures kind { self.new.kind ≡ self.old.kind }
        ensures sealed { self.new.sealed ≡ self.old.sealed }
        ensures trees { self.new.trees ≡ self.old.trees }
    {
        let side = side(args.word()?)?;
        self.closed = true;
        match self.kind {
            Some(Kind::Trees) => reader.set_line(first, side, args, sets, &self.trees),
            Some(Kind::Sealed) | None => reader.set_line(first, side, args, sets, &self.sealed),
        }
    }
}
