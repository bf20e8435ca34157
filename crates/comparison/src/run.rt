// A run of rounds with an allowance.
ghost use Rattle.comparison.specs.Calls.{Runs};

use crate::checks::{MOST_ROUNDS, accept_round};
use crate::refusal::Refused;
use crate::round::advance;
use crate::stage::Open;
use crate::strike::Strike;
use systems::label::Label;
use systems::system::System;

// Rounds until the allowance is spent, a round is still or no more rounds may be done. Answers the rounds done and the pairs struck.
pub fn run<L: Label, A: System<L>, B: System<L>>(
    comparison: Open,
    first: &A,
    second: &B,
    sheet: &mut [Strike],
    allowance: u32,
) -> Result<(Open, (u32, u32)), Refused>
    ensures { Runs L.Label.below (A.System.meaning first.now) (B.System.meaning second.now) allowance comparison sheet.old result sheet.new }
{
    let mut stage = accept_round(comparison, first, second, sheet.len())?;
    let mut struck = 0;
    for done in 0..allowance {
        if stage.still || stage.rounds >= MOST_ROUNDS {
            return Ok((stage, (done, struck)));
        }
        let (next, more) = advance(stage, first, second, sheet);
        stage = next;
        struck += more;
    }
    Ok((stage, (allowance, struck)))
}
