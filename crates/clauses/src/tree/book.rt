ghost use Rattle.std.specs.Prelude.{◌≡◌, refl};
ghost use Rattle.names.specs.Book.{texts as texts_of};
ghost use Rattle.names.specs.Names.{with_entered};
ghost use Rattle.clauses.specs.NodeEquals.{derived_nodes};
ghost use Rattle.clauses.specs.Nodes.{same_nodes, tree_clause};
ghost use Rattle.clauses.specs.TreeBooks.{trees as trees_of, tree_clauses};
ghost use Rattle.clauses.specs.TreeEntering.{tree_answer, TreeEntered};
ghost use Rattle.clauses.specs.TreeLaw.{trees_decide, trees_small, trees_slotless};

use crate::content::Content;
use crate::contents::ContentBook;
use crate::tree::check::check_clause;
use crate::tree::clause::{constant_of_tree, slots_of_tree};
use crate::tree::node::Node;
use names::kept::NameBook;
use refusals::refusal::Refusal;
use refusals::slots::SlotSet;

// A book of trees in postfix order, whose contents are the lists of nodes.
pub type TreeBook = ContentBook<Node, 64>;

impl Content for Node {
    ghost clause = { tree_clause };

    ghost equal = { same_nodes };

    ghost compared = { derived_nodes };

    ghost decides = { trees_decide };

    ghost keeps = { λ t. refl };

    ghost two_bits = { trees_small };

    ghost slotless = { trees_slotless };

    fn slots_of(nodes: &[Node]) -> SlotSet {
        slots_of_tree(nodes)
    }

    fn constant_of(nodes: &[Node]) -> Option<bool> {
        constant_of_tree(nodes)
    }
}

impl ContentBook<Node, 64> {
    // Enters a tree under the next number.
    pub fn enter(&mut self, nodes: &[Node], names: &NameBook) -> Result<u16, Refusal>
        ensures answer { result ≡ tree_answer (texts_of names.now) (trees_of self.old) nodes.now }
        ensures trees { trees_of self.new ≡ with_entered result (trees_of self.old) nodes.now }
        ensures clauses { tree_clauses self.new ≡ with_entered result (tree_clauses self.old) (tree_clause nodes.now) }
        ensures law { TreeEntered (texts_of names.now) (trees_of self.old) nodes.now result }
    {
        check_clause(nodes, names)?;
        self.put(nodes)
    }
}
