ghost use Rattle.std.specs.Prelude.{◌≡◌};
ghost use Rattle.clauses.specs.Nodes.{takes};
ghost use Rattle.clauses.specs.Shape.{shape, Judged, OneTree};

use crate::tree::node::Node;

impl Node {
    // How many operands the node takes.
    fn operands(self) -> usize
        ensures { result ≡ takes self }
    {
        match self {
            Node::Lit(_) | Node::Var(_) | Node::Slot(_) | Node::Entity(_) => 0,
            Node::Not | Node::Is(_) => 1,
            Node::And | Node::Or | Node::Eq | Node::In => 2,
        }
    }
}

// Whether the nodes are the postfix writing of one tree; else the place of the first node that lacks operands, or the node count.
pub fn check_tree(nodes: &[Node]) -> Result<(), usize>
    ensures answer { result ≡ shape takes 0 0 nodes.now }
    ensures judged { Judged takes nodes.now result }
    ensures one_reading { OneTree takes nodes.now }
{
    let mut standing: usize = 0;
    for (place, node) in nodes.iter().enumerate() {
        let taken = node.operands();
        if standing < taken {
            return Err(place);
        }
        standing = standing - taken + 1;
    }
    if standing == 1 {
        Ok(())
    } else {
        Err(nodes.len())
    }
}
