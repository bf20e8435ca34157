// Judging: which states of a system satisfy the formula that each node of a sheet stands for.
ghost use Rattle.std.specs.Prelude.{◌≡◌, ◌≤◌, false, length, None, Ok};
ghost use Rattle.systems.specs.Sets.{has, set_of};
ghost use Rattle.formulas.specs.Sheet.{faulty, first_fault};
ghost use Rattle.formulas.specs.NodeSets.{can_enter, must_enter, node_set};
ghost use Rattle.formulas.specs.Judging.{judged, judging_answer, sheet_after, Judges};

use crate::node::Node;
use crate::refusal::Refusal;
use systems::label::Label;
use systems::masks::{all_below, contains, is_within, meets, set_where};
use systems::system::System;

// Whether a node is faulty as the given number of a sheet. Children are cast: no From leads from u32 to usize, and
// try_from answers a Result that cannot fail here.
fn is_faulty<L: Label>(node: &Node<L>, number: usize, actions: u8) -> bool
    ensures { result ≡ faulty actions number node.now }
{
    match *node {
        Node::True | Node::False | Node::Label(_) => false,
        Node::And(left, right) | Node::Or(left, right) => {
            left as usize >= number || right as usize >= number
        }
        Node::Diamond(action, child) | Node::Box(action, child) => {
            action >= actions || child as usize >= number
        }
    }
}

// the lowest faulty node
fn lowest_fault<L: Label>(nodes: &[Node<L>], actions: u8) -> Option<usize>
    ensures { result ≡ first_fault actions nodes.now }
{
    nodes
        .iter()
        .enumerate()
        .position(|(i, node)| is_faulty(node, i, actions))
}

fn is_labelled<L: Label, S: System<L>>(system: &S, p: u8, label: &L) -> bool
    ensures { result ≡ L.Label.below label.now ((S.System.meaning system.now).label p) }
{
    label.is_below(&system.label(p))
}

fn is_open<L: Label, S: System<L>>(system: &S, p: u8, action: u8) -> bool
    ensures { result ≡ has (set_of 32 ((S.System.meaning system.now).marks p)) action }
{
    contains(u64::from(system.open_on(p)), action)
}

fn can_enter<L: Label, S: System<L>>(system: &S, p: u8, action: u8, set: u64) -> bool
    ensures { result ≡ can_enter (S.System.meaning system.now) action set p }
{
    meets(system.reach(p, action), set)
}

fn must_enter<L: Label, S: System<L>>(system: &S, p: u8, action: u8, set: u64) -> bool
    ensures { result ≡ must_enter (S.System.meaning system.now) action set p }
{
    !is_open(system, p, action) && is_within(system.reach(p, action), set)
}

// a node's set, from the sets of the nodes before it
fn node_states<L: Label, S: System<L>>(system: &S, node: &Node<L>, sets: &[u64]) -> u64
    requires { faulty (S.System.meaning system.now).actions (length sets.now) node.now ≡ false }
    ensures { result ≡ node_set L.Label.below (S.System.meaning system.now) sets.now node.now }
{
    match *node {
        Node::True => all_below(system.states()),
        Node::False => 0,
        Node::Label(label) => set_where(system.states(), |p| is_labelled(system, p, &label)),
        Node::And(left, right) => sets[left as usize] & sets[right as usize],
        Node::Or(left, right) => sets[left as usize] | sets[right as usize],
        Node::Diamond(action, child) => {
            let set = sets[child as usize];
            set_where(system.states(), |p| can_enter(system, p, action, set))
        }
        Node::Box(action, child) => {
            let set = sets[child as usize];
            set_where(system.states(), |p| must_enter(system, p, action, set))
        }
    }
}

fn write_sets<L: Label, S: System<L>>(system: &S, nodes: &[Node<L>], answers: &mut [u64])
    requires { (first_fault (S.System.meaning system.now).actions nodes.now ≡ None) × (length nodes.now ≤ length answers.old) }
    ensures { answers.new ≡ judged L.Label.below (S.System.meaning system.now) nodes.now answers.old }
{
    for (i, node) in nodes.iter().enumerate() {
        answers[i] = node_states(system, node, &answers[..i]);
    }
}

// For each node, the set of the states of the system that satisfy the formula that the node stands for.
pub fn judge<L: Label, S: System<L>>(
    system: &S,
    nodes: &[Node<L>],
    answers: &mut [u64],
) -> Result<(), Refusal>
    ensures answer { result ≡ judging_answer (S.System.meaning system.now).actions (length answers.old) nodes.now }
    ensures sheet { answers.new ≡ sheet_after L.Label.below (S.System.meaning system.now) result nodes.now answers.old }
    ensures judges { result ≡ Ok tt → Judges L.Label.below (S.System.meaning system.now) nodes.now answers.new }
{
    if let Some(i) = lowest_fault(nodes, system.actions()) {
        return Err(Refusal::Node(i));
    }
    if answers.len() < nodes.len() {
        return Err(Refusal::AnswersShort);
    }
    write_sets(system, nodes, answers);
    Ok(())
}
