// Label kinds, the interface of a system, sets of states and actions, and cells of lent sheets.
#![tactic(auto)]

pub mod kinds;
pub mod label;
pub mod masks;
pub mod sheet;
pub mod system;
