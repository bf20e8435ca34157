// One round of a comparison.
ghost use Rattle.std.specs.Prelude.{◌≡◌, ◌<◌};
ghost use Rattle.comparison.specs.Calls.{Rounds, one_more, round_sheet, round_strikes};

use crate::checks::accept_round;
use crate::grid::Grid;
use crate::refusal::Refused;
use crate::relation::Related;
use crate::stage::Open;
use crate::strike::Strike;
use crate::striking::Round;
use std::marker::PhantomData;
use systems::label::Label;
use systems::system::System;

// Strikes each related pair that has a reason, and answers how many.
#[tactic(auto, unfolding(crate::specs::Calls::Rounds, crate::specs::Calls::round_refusal))]
pub fn round<L: Label, A: System<L>, B: System<L>>(
    comparison: Open,
    first: &A,
    second: &B,
    sheet: &mut [Strike],
) -> Result<(Open, u32), Refused>
    ensures { Rounds L.Label.below (A.System.meaning first.now) (B.System.meaning second.now) comparison sheet.old result sheet.new }
{
    let accepted = accept_round(comparison, first, second, sheet.len())?;
    Ok(advance(accepted, first, second, sheet))
}

// A round that is not refused. The related pairs are taken out of the sheet before the first strike is written.
pub(crate) fn advance<L: Label, A: System<L>, B: System<L>>(
    comparison: Open,
    first: &A,
    second: &B,
    sheet: &mut [Strike],
) -> (Open, u32)
    requires { comparison.rounds < 4097 }
    ensures struck { result.1 ≡ round_strikes L.Label.below (A.System.meaning first.now) (B.System.meaning second.now) comparison.rounds sheet.old }
    ensures stage { result.0 ≡ one_more comparison result.1 }
    ensures cells { sheet.new ≡ round_sheet L.Label.below (A.System.meaning first.now) (B.System.meaning second.now) comparison.rounds sheet.old }
{
    let grid = Grid {
        height: first.states(),
        width: second.states(),
    };
    let k = comparison.rounds + 1;
    let related = Related::in_sheet(grid, sheet, k);
    let round = Round {
        first,
        second,
        k,
        related,
        labels: PhantomData,
    };
    let struck = round.strike_rows(sheet);
    let next = Open {
        shape: comparison.shape,
        rounds: k,
        still: struck == 0,
    };
    (next, struck)
}
