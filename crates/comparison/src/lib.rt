// Comparing two systems: opening, rounds, runs and closing over a sheet of strikes.
#![tactic(auto)]

mod checks;
pub mod closing;
pub mod grid;
mod moves;
pub mod opening;
mod reasons;
pub mod refusal;
mod relation;
pub mod round;
pub mod run;
pub mod settling;
pub mod stage;
pub mod strike;
mod striking;
