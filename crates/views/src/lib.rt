// Views of a system that are systems again: the open and the closed layer, the weak view, and the tabled system.
#![tactic(auto)]

// A cast by `as` loses nothing here, which the check proves: it widens, or the number is below 64. `usize::from` says no more, and there is
// none the other way.

mod closure;
pub mod laws;
pub mod layers;
pub mod refusal;
mod sets;
pub mod sheets;
pub mod tabled;
pub mod weak;
