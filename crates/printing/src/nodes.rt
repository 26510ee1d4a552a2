ghost use Rattle.std.specs.Prelude.{◌≡◌, IfOk, string_bytes, OnOk, ◌∷◌, ◌++◌, map};
ghost use Rattle.names.specs.Book.{texts as texts_of};
ghost use Rattle.printing.specs.Nodes.{node_word};
ghost use Rattle.printing.specs.Answers.{counted_line};

// Conditions as lines.
use crate::print::push_word;
use crate::scopes::{push_entity, push_type};
use names::kept::NameBook;
use policy::node::ConditionNode;
use refusals::slots::SlotId;
use std::alloc::{AllocError, Global};
use std::fmt::Write;

// Puts a space and a node of a condition behind a line: no `Display`, which could not read the book.
fn push_node(line: &mut String, book: &NameBook, node: ConditionNode) -> Result<(), AllocError>
    ensures { OnOk result (string_bytes line.new ≡ string_bytes line.old ++ (32 ∷ node_word (texts_of book.now) node)) }
{
    match node {
        ConditionNode::Bool(value) => write!(line, " {value}"),
        ConditionNode::Principal => push_word(line, "principal"),
        ConditionNode::Action => push_word(line, "action"),
        ConditionNode::Resource => push_word(line, "resource"),
        ConditionNode::Slot(SlotId::Principal) => push_word(line, "?principal"),
        ConditionNode::Slot(SlotId::Resource) => push_word(line, "?resource"),
        ConditionNode::Eq => push_word(line, "eq"),
        ConditionNode::In => push_word(line, "in"),
        ConditionNode::And => push_word(line, "and"),
        ConditionNode::Set(count) => write!(line, " set:{count}"),
        ConditionNode::Clause(number) => write!(line, " clause:{number}"),
        ConditionNode::Is(ty) => {
            write!(line, " is:")?;
            push_type(line, book, ty)
        }
        ConditionNode::Entity(e) => {
            write!(line, " entity:")?;
            push_entity(line, book, e)
        }
    }
}

// `ok N NODE ...`
pub fn nodes_line(
    heap: Global,
    book: &NameBook,
    nodes: &[ConditionNode],
) -> Result<String, AllocError>
    ensures { IfOk result (λ line. string_bytes line ≡ counted_line (map (node_word (texts_of book.now)) nodes.now)) }
{
    let count = nodes.len();
    let mut line = format!(in heap; "ok {count}")?;
    for node in nodes {
        push_node(&mut line, book, *node)?;
    }
    Ok(line)
}
