ghost use Rattle.std.specs.Prelude.{◌≡◌, ◌+◌, ◌<◌, ◌≤◌, length};
ghost use Rattle.arrayvec.specs.ArrayVec.{array_vec_len};
ghost use Rattle.policy.specs.Condition.{constant as constant_of, both};
ghost use Rattle.policy.specs.Nodes.{Wrote, Folds, Joins};

use crate::node::ConditionNode;
use crate::nodes::NodeList;

// The constant that a node is.
fn constant(node: ConditionNode) -> Option<bool>
    ensures { result ≡ constant_of node }
{
    match node {
        ConditionNode::Bool(b) => Some(b),
        _ => None,
    }
}

// The constant that two constants make together.
fn both_constants(left: Option<bool>, right: Option<bool>) -> Option<bool>
    ensures { result ≡ both left right }
{
    left.zip(right).map(|(a, b)| a && b)
}

// The nodes behind those of the list.
// Each writer asks for a different amount of room, so no type invariant can state it.
pub(crate) fn extend(list: &mut NodeList, nodes: &[ConditionNode])
    requires { array_vec_len list.old + length nodes.now ≤ 27 }
    ensures { Wrote list.old list.new nodes.now (length nodes.now) }
{
    list.try_extend_from_slice(nodes).unwrap();
}

// The constant that the last two nodes make together.
fn folded(nodes: &[ConditionNode]) -> Option<bool>
    ensures { Folds nodes.now result }
{
    match nodes {
        [.., left, right] => both_constants(constant(*left), constant(*right)),
        _ => None,
    }
}

// The last two trees become one under `and`; two constants become one constant.
pub(crate) fn and(list: &mut NodeList)
    requires { array_vec_len list.old < 27 }
    ensures { Joins list.old list.new }
{
    match folded(list.as_slice()) {
        Some(value) => {
            list.truncate(list.len() - 2);
            list.push(ConditionNode::Bool(value));
        }
        None => list.push(ConditionNode::And),
    }
}
