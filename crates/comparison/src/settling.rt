// Settling a comparison in one call.
ghost use Rattle.comparison.specs.Settling.{Settles};

use crate::checks::MOST_ROUNDS;
use crate::closing::close;
use crate::opening::begin;
use crate::refusal::Refusal;
use crate::run::run;
use crate::stage::Verdict;
use crate::strike::Strike;
use systems::label::Label;
use systems::system::System;

// a verdict, the rounds that were done and the pairs that they struck
#[derive(Drop)]
pub struct Settled {
    pub verdict: Verdict,
    pub rounds: u32,
    pub struck: u32,
}

// Opens, runs for as many rounds as there may be, and closes. That many are always enough for a verdict.
pub fn settle<L: Label, A: System<L>, B: System<L>>(
    first: &A,
    second: &B,
    sheet: &mut [Strike],
) -> Result<Settled, Refusal>
    ensures { Settles L.Label.below (A.System.meaning first.now) (B.System.meaning second.now) sheet.old result sheet.new }
{
    let opened = begin(first, second, sheet)?;
    let Ok((comparison, (rounds, struck))) = run(
        opened,
        first,
        second,
        sheet,
        u32::from(MOST_ROUNDS),
    ) else {
        unreachable()
    };
    let Ok(verdict) = close(comparison, sheet) else {
        unreachable()
    };
    Ok(Settled {
        verdict,
        rounds,
        struck,
    })
}
