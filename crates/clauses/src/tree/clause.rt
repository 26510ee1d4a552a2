ghost use Rattle.std.specs.Prelude.{◌≡◌, Decides};
ghost use Rattle.refusals.specs.declared.slots.SlotId.{SlotId as AnySlot};
ghost use Rattle.refusals.specs.Slots.{has};
ghost use Rattle.clauses.specs.Nodes.{node_slots, tree_slots, tree_constant, Mentions};

use crate::tree::node::Node;
use refusals::slots::SlotSet;

impl Node {
    // The slots of the node.
    fn slots(self) -> SlotSet
        ensures { result.bits ≡ node_slots self }
    {
        match self {
            Node::Slot(slot) => SlotSet::single(slot),
            _ => SlotSet::empty(),
        }
    }
}

// The slots of a tree: those of its nodes.
pub fn slots_of_tree(nodes: &[Node]) -> SlotSet
    ensures slots { result.bits ≡ tree_slots nodes.now }
    ensures told { (slot : AnySlot) → Decides (has slot result) (Mentions slot nodes.now) }
{
    let mut slots = SlotSet::empty();
    for node in nodes {
        slots = slots.union(node.slots());
    }
    slots
}

// The constant that a tree is, if any: that of a lone node.
pub fn constant_of_tree(nodes: &[Node]) -> Option<bool>
    ensures { result ≡ tree_constant nodes.now }
{
    match nodes {
        [Node::Lit(value)] => Some(*value),
        _ => None,
    }
}
