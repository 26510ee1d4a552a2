ghost use Rattle.std.specs.Prelude.{◌≡◌, ℕ, List, Result, length};
ghost use Rattle.std.specs.List.{flat_map};
ghost use Rattle.names.specs.Book.{texts};
ghost use Rattle.refusals.specs.declared.refusal.Refusal.{Refusal as AnyRefusal};
ghost use Rattle.clauses.specs.declared.tree.node.Node.{Node as AnyNode};
ghost use Rattle.clauses.specs.Checks.{in_turn};
ghost use Rattle.clauses.specs.NameChecks.{name_check, type_check};
ghost use Rattle.clauses.specs.Nodes.{node_names, node_types};
ghost use Rattle.clauses.specs.TreeEntering.{names_in, types_in};

use crate::naming::{check_name, check_type};
use crate::tree::node::Node;
use names::kept::NameBook;
use refusals::refusal::Refusal;

impl Node {
    // Refusal 1 for the node's first name that is not the book's.
    fn check_names(self, names: &NameBook) -> Result<(), Refusal>
        ensures { result ≡ in_turn (name_check (length (texts names.now))) (node_names self) }
    {
        match self {
            Node::Entity(entity) => {
                check_name(names, entity.ty)?;
                check_name(names, entity.eid)
            }
            Node::Is(ty) => check_name(names, ty),
            _ => Ok(()),
        }
    }

    // Refusal 5 where the node's type is no type name.
    // A match of its own, since it visits other names than the one above: of an entity the type alone.
    fn check_types(self, names: &NameBook) -> Result<(), Refusal>
        ensures { result ≡ in_turn (type_check (texts names.now)) (node_types self) }
    {
        match self {
            Node::Entity(entity) => check_type(names, entity.ty),
            Node::Is(ty) => check_type(names, ty),
            _ => Ok(()),
        }
    }
}

// What the check refuses the first of the nodes for that it refuses.
fn check_each<F: Fn(Node) -> Result<(), Refusal>>(nodes: &[Node], check: F) -> Result<(), Refusal>
    requires { F.IsAlwaysCallable check }
    ensures { (test : ℕ → Result (Unit {0}) AnyRefusal) (held : AnyNode → List ℕ) → ((node : AnyNode) (r : _) → F.post check node r → r ≡ in_turn test (held node)) → result ≡ in_turn test (flat_map held nodes.now) }
{
    for node in nodes {
        check(*node)?;
    }
    Ok(())
}

// Refusal 1 for the first name of the nodes that is not the book's.
pub fn check_all_names(nodes: &[Node], names: &NameBook) -> Result<(), Refusal>
    ensures { result ≡ in_turn (name_check (length (texts names.now))) (names_in nodes.now) }
{
    check_each(nodes, |node| node.check_names(names))
}

// Refusal 5 for the first type of the nodes that is no type name.
pub fn check_all_types(nodes: &[Node], names: &NameBook) -> Result<(), Refusal>
    ensures { result ≡ in_turn (type_check (texts names.now)) (types_in nodes.now) }
{
    check_each(nodes, |node| node.check_types(names))
}
