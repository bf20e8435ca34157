// Whether a call is refused, by the systems and the sheet that it is handed.
ghost use Rattle.std.specs.Prelude.{◌≡◌};
ghost use Rattle.std.specs.Result.{result_err};
ghost use Rattle.comparison.specs.Calls.{TakesRound, begun, fits, handed, opening_refusal};

use crate::refusal::{Refusal, Refused};
use crate::stage::{Open, Shape};
use systems::label::Label;
use systems::system::System;

// how many rounds a comparison may do
pub(crate) const MOST_ROUNDS: u16 = 4097;

// The two systems are two parameters, here and in the calls: a pair of them would make each clause longer, and the calls are handed two.
pub(crate) fn shape_of<L: Label, A: System<L>, B: System<L>>(first: &A, second: &B) -> Shape
    ensures { result ≡ (begun (handed (A.System.meaning first.now) (B.System.meaning second.now))).shape }
{
    Shape {
        first_states: first.states(),
        second_states: second.states(),
        actions: first.actions(),
        first_start: first.start(),
        second_start: second.start(),
    }
}

// whether two systems may be compared on a sheet of so many cells
#[tactic(auto, unfolding(crate::specs::Calls::opening_refusal))]
pub(crate) fn check_opening<L: Label, A: System<L>, B: System<L>>(
    first: &A,
    second: &B,
    cells: usize,
) -> Result<(), Refusal>
    ensures { result_err result ≡ opening_refusal (handed (A.System.meaning first.now) (B.System.meaning second.now)) cells }
{
    if first.actions() != second.actions() {
        return Err(Refusal::ActionsDiffer);
    }
    if cells < shape_of(first, second).pairs() {
        return Err(Refusal::SheetShort);
    }
    Ok(())
}

// whether these are the comparison's systems, by their counts and starts
fn same_systems<L: Label, A: System<L>, B: System<L>>(shape: Shape, first: &A, second: &B) -> bool
    ensures { result ≡ fits shape (handed (A.System.meaning first.now) (B.System.meaning second.now)) }
{
    shape_of(first, second) == shape && second.actions() == shape.actions
}

// Hands the comparison on if a round or a run may be done with these systems on a sheet of so many cells.
#[tactic(auto, unfolding(crate::specs::Calls::round_refusal))]
pub(crate) fn accept_round<L: Label, A: System<L>, B: System<L>>(
    comparison: Open,
    first: &A,
    second: &B,
    cells: usize,
) -> Result<Open, Refused>
    ensures { TakesRound comparison (handed (A.System.meaning first.now) (B.System.meaning second.now)) cells result }
{
    let shape = comparison.shape;
    if !same_systems(shape, first, second) {
        return Err(comparison.refused(Refusal::OtherSystems));
    }
    if cells < shape.pairs() {
        return Err(comparison.refused(Refusal::SheetShort));
    }
    if comparison.still {
        return Err(comparison.refused(Refusal::AfterStill));
    }
    if comparison.rounds >= MOST_ROUNDS {
        return Err(comparison.refused(Refusal::RoundsSpent));
    }
    Ok(comparison)
}
