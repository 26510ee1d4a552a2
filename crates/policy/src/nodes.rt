use crate::node::ConditionNode;
use arrayvec::ArrayVec;

pub mod writing;

// Nodes in postfix order: no condition has more than 27.
pub type NodeList = ArrayVec<ConditionNode, 27>;
