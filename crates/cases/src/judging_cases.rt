// Judging: which states satisfy each node, and the refusals.
use crate::filed::ranked;
use formulas::judging::judge;
use formulas::node::Node;
use formulas::refusal::Refusal;
use systems::kinds::Rank;
use systems::system::System;

// 0 -1-> 1, 1 -2-> 2, state 0 open on 2, rank 3 at state 1
const SYSTEM: &[u8] = b"SY\x03\x03\x00\x00MV\x00\x01\x01MV\x01\x02\x02OP\x00\x02LB\x01\x03\x00";

fn judged(nodes: &[Node<Rank>], answers: &mut [u64]) -> Result<(), Refusal> {
    judge(&ranked(SYSTEM), nodes, answers)
}

// a refusal's number and the node that it names, or 0, which are what the cases below state
fn numbered(refusal: Refusal) -> (u8, usize) {
    match refusal {
        Refusal::Node(node) => (u8::from(refusal), node),
        Refusal::AnswersShort => (u8::from(refusal), 0),
    }
}

#[test]
fn each_form_of_node(rt: HostRuntime) {
    let nodes = [
        Node::True,
        Node::False,
        Node::Label(Rank { value: 2 }),
        Node::Diamond(1, 0),
        Node::Box(2, 1),
        Node::Or(2, 3),
        Node::And(4, 0),
        Node::Diamond(1, 2),
    ];
    let mut answers = [7u64; 9];
    assert_eq!(rt; judged(&nodes, &mut answers), Ok(()));
    assert_eq!(rt;
        answers,
        [0b111, 0, 0b010, 0b001, 0b100, 0b011, 0b100, 0b001, 7]
    );
}

#[test]
fn refused_nodes(rt: HostRuntime) {
    let mut answers = [7u64; 2];
    // filed, and not the lone system that a refused filing leaves
    assert_eq!(rt; ranked(SYSTEM).states(), 3);
    assert_eq!(rt;
        judged(&[Node::True, Node::Diamond(3, 0)], &mut answers).map_err(numbered),
        Err((51, 1))
    );
    assert_eq!(rt;
        judged(&[Node::Box(200, 0)], &mut answers).map_err(numbered),
        Err((51, 0))
    );
    assert_eq!(rt;
        judged(&[Node::True, Node::And(0, 1)], &mut answers).map_err(numbered),
        Err((51, 1))
    );
    assert_eq!(rt;
        judged(&[Node::True, Node::True, Node::Or(2, 0)], &mut answers).map_err(numbered),
        Err((51, 2))
    );
    assert_eq!(rt;
        judged(&[Node::True, Node::True, Node::True], &mut answers).map_err(numbered),
        Err((52, 0))
    );
    assert_eq!(rt; answers, [7, 7]);
}
