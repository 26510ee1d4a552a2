ghost use Rattle.std.specs.Prelude.{◌≡◌};
ghost use Rattle.names.specs.Book.{texts};
ghost use Rattle.clauses.specs.TreeEntering.{tree_check};

use crate::tree::name_checks::{check_all_names, check_all_types};
use crate::tree::node::Node;
use crate::tree::shape::check_tree;
use names::kept::NameBook;
use refusals::refusal::Refusal;

// Refusals 3, 1, 5 and 7 of a tree, in this order.
pub fn check_clause(nodes: &[Node], names: &NameBook) -> Result<(), Refusal>
    ensures { result ≡ tree_check (texts names.now) nodes.now }
{
    if nodes.len() > 64 {
        return Err(Refusal::TooLong(nodes.len()));
    }
    check_all_names(nodes, names)?;
    check_all_types(nodes, names)?;
    check_tree(nodes).map_err(|place| Refusal::BadClause(place))
}
