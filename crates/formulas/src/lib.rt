// Formulas over a system, sheets of nodes, and judging.
#![tactic(auto)]

pub mod judging;
pub mod node;
pub mod refusal;
