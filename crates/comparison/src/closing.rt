// Closing a comparison.
ghost use Rattle.comparison.specs.Calls.{Closes};

use crate::refusal::{Refusal, Refused};
use crate::stage::{No, Open, Verdict, Yes};
use crate::strike::{Strike, strike_at};

// No if the pair of both starts is struck, else yes if the last round was still.
#[tactic(auto, unfolding(crate::specs::Calls::closing))]
pub fn close(comparison: Open, sheet: &[Strike]) -> Result<Verdict, Refused>
    ensures { Closes comparison sheet.now result }
{
    let shape = comparison.shape;
    let rounds = comparison.rounds;
    if sheet.len() < shape.pairs() {
        return Err(comparison.refused(Refusal::SheetShort));
    }
    let start = strike_at(shape.grid(), sheet, shape.first_start, shape.second_start);
    if start.round <= rounds {
        return Ok(Verdict::No(No { shape, rounds }));
    }
    if comparison.still {
        return Ok(Verdict::Yes(Yes { shape, rounds }));
    }
    Err(comparison.refused(Refusal::Undecided))
}
