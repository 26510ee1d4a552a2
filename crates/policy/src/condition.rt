ghost use Rattle.std.specs.Prelude.{◌≡◌, ℕ, ◌+◌, ◌<◌, ◌≤◌, List, [], ◌∷◌, ◌++◌, map, length, IfOk};
ghost use Rattle.arrayvec.specs.ArrayVec.{array_vec_len};
ghost use Rattle.names.specs.Book.{texts};
ghost use Rattle.clauses.specs.Tree.{written, One};
ghost use Rattle.clauses.specs.Shape.{OneTree};
ghost use Rattle.policy.specs.Calls.{condition_answer};
ghost use Rattle.policy.specs.Evaluation.{Means};
ghost use Rattle.policy.specs.Hierarchy.{InDecided};
ghost use Rattle.policy.specs.Answer.{fitted, buffer_after};
ghost use Rattle.policy.specs.Condition.{arity, reference_node, scope_tree, action_tree, clause_node as node_of_clause, condition_tree};
ghost use Rattle.policy.specs.Nodes.{Wrote};
ghost use Rattle.policy.specs.declared.node.ConditionNode.TheVariants.{Entity as Named};

use crate::action::ActionConstraint;
use crate::constraint::{EntityReference, PrincipalOrResourceConstraint};
use crate::known::known_template;
use crate::node::ConditionNode;
use crate::nodes::NodeList;
use crate::nodes::writing::{and, extend};
use crate::template::Template;
use clauses::book::ClauseBook;
use names::entity::EntityUID;
use names::kept::NameBook;
use refusals::refusal::Refusal;
use refusals::slots::SlotId;

// What a scope refers to, as a node: an entity, or the slot that is given.
fn reference(slot: ConditionNode, r: EntityReference) -> ConditionNode
    ensures { result ≡ reference_node slot r }
{
    match r {
        EntityReference::EUID(e) => ConditionNode::Entity(e),
        EntityReference::Slot => slot,
    }
}

// The scope of a variable, whose slot is given.
fn write_scope(
    list: &mut NodeList,
    variable: ConditionNode,
    slot: ConditionNode,
    s: PrincipalOrResourceConstraint,
)
    requires { array_vec_len list.old + 6 ≤ 27 }
    ensures { Wrote list.old list.new (written (scope_tree variable slot s)) 6 }
{
    match s {
        PrincipalOrResourceConstraint::Any => list.push(ConditionNode::Bool(true)),
        PrincipalOrResourceConstraint::In(r) => extend(
            list,
            &[variable, reference(slot, r), ConditionNode::In],
        ),
        PrincipalOrResourceConstraint::Eq(r) => extend(
            list,
            &[variable, reference(slot, r), ConditionNode::Eq],
        ),
        PrincipalOrResourceConstraint::Is(t) => extend(list, &[variable, ConditionNode::Is(t)]),
        PrincipalOrResourceConstraint::IsIn(t, r) => {
            let r = reference(slot, r);
            extend(
                list,
                &[
                    variable,
                    ConditionNode::Is(t),
                    variable,
                    r,
                    ConditionNode::In,
                    ConditionNode::And,
                ],
            );
        }
    }
}

// Entities, each one node.
fn write_entities(list: &mut NodeList, entities: &[EntityUID])
    requires { array_vec_len list.old + length entities.now ≤ 27 }
    ensures { Wrote list.old list.new (map Named entities.now) (length entities.now) }
{
    for e in entities {
        list.push(ConditionNode::Entity(*e));
    }
}

// The action's scope.
fn write_action(list: &mut NodeList, action: &ActionConstraint)
    requires { array_vec_len list.old + 11 ≤ 27 }
    ensures { Wrote list.old list.new (written (action_tree action.now)) 11 }
{
    match action {
        ActionConstraint::Any => list.push(ConditionNode::Bool(true)),
        ActionConstraint::In(actions) => {
            list.push(ConditionNode::Action);
            write_entities(list, actions.as_slice());
            extend(
                list,
                &[ConditionNode::Set(actions.count), ConditionNode::In],
            );
        }
        ActionConstraint::Eq(e) => extend(
            list,
            &[
                ConditionNode::Action,
                ConditionNode::Entity(*e),
                ConditionNode::Eq,
            ],
        ),
    }
}

// The clause's constant, else one node; an absent clause is true.
fn clause_node<B: ClauseBook>(clauses: &B, clause: Option<u16>) -> ConditionNode
    ensures { result ≡ node_of_clause (B.ClauseBook.listed clauses.now) clause }
{
    match clause {
        None => ConditionNode::Bool(true),
        Some(n) => clauses
            .constant(n)
            .map_or(ConditionNode::Clause(n), |b| ConditionNode::Bool(b)),
    }
}

// The nodes of a template's condition.
fn written_condition<B: ClauseBook>(t: &Template, clauses: &B) -> NodeList
    ensures { result.items ≡ written (condition_tree (B.ClauseBook.listed clauses.now) t.now) }
{
    let mut list = NodeList::new();
    write_scope(
        &mut list,
        ConditionNode::Principal,
        ConditionNode::Slot(SlotId::Principal),
        t.principal,
    );
    write_action(&mut list, &t.action);
    write_scope(
        &mut list,
        ConditionNode::Resource,
        ConditionNode::Slot(SlotId::Resource),
        t.resource,
    );
    list.push(clause_node(clauses, t.clause));
    and(&mut list);
    and(&mut list);
    and(&mut list);
    list
}

// The nodes into the caller's buffer, where there is room for all.
fn copy_out(nodes: &[ConditionNode], buffer: &mut [ConditionNode]) -> Result<usize, Refusal>
    ensures answer { result ≡ fitted nodes.now (length buffer.old) }
    ensures buffer { buffer.new ≡ buffer_after nodes.now buffer.old result }
    ensures all { IfOk result (λ count. count ≡ length nodes.now) }
{
    let needed = nodes.len();
    if buffer.len() < needed {
        return Err(Refusal::ShortBuffer(needed));
    }
    buffer[0..needed].copy_from_slice(nodes);
    Ok(needed)
}

impl Template {
    // The condition as postfix nodes at the front of the buffer, and how many they are.
    pub fn condition<B: ClauseBook>(
        &self,
        names: &NameBook,
        clauses: &B,
        buffer: &mut [ConditionNode],
    ) -> Result<usize, Refusal>
        ensures answer { result ≡ condition_answer (length (texts names.now)) (B.ClauseBook.listed clauses.now) self.now (length buffer.old) }
        ensures buffer { buffer.new ≡ buffer_after (written (condition_tree (B.ClauseBook.listed clauses.now) self.now)) buffer.old result }
        ensures few { IfOk result (λ count. count ≤ 27) }
        ensures one_tree { One arity (written (condition_tree (B.ClauseBook.listed clauses.now) self.now)) }
        ensures one_reading { OneTree arity (written (condition_tree (B.ClauseBook.listed clauses.now) self.now)) }
        ensures means { Means (B.ClauseBook.listed clauses.now) self.now }
        ensures hierarchy { InDecided }
    {
        known_template(self, names.count(), clauses)?;
        let nodes = written_condition(self, clauses);
        copy_out(nodes.as_slice(), buffer)
    }
}
