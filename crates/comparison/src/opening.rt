// Opening a comparison.
ghost use Rattle.std.specs.Prelude.{◌≡◌, ◌≤◌, length};
ghost use Rattle.comparison.specs.Calls.{Opens};
ghost use Rattle.comparison.specs.Grid.{place};
ghost use Rattle.comparison.specs.History.{EveryHistory};
ghost use Rattle.comparison.specs.Search.{opened_strike, row_filled};

use crate::checks::{check_opening, shape_of};
use crate::grid::Grid;
use crate::refusal::Refusal;
use crate::stage::Open;
use crate::strike::Strike;
use systems::label::Label;
use systems::sheet::write_first;
use systems::system::System;

// Strikes the pairs whose labels fail and makes the others unstruck.
pub fn begin<L: Label, A: System<L>, B: System<L>>(
    first: &A,
    second: &B,
    sheet: &mut [Strike],
) -> Result<Open, Refusal>
    ensures step { Opens L.Label.below (A.System.meaning first.now) (B.System.meaning second.now) sheet.old result sheet.new }
    ensures law { EveryHistory L.Label.below (A.System.meaning first.now) (B.System.meaning second.now) }
{
    check_opening(first, second, sheet.len())?;
    let shape = shape_of(first, second);
    let grid = shape.grid();
    for p in 0..grid.height {
        open_row(first, second, grid, p, sheet);
    }
    Ok(Open {
        shape,
        rounds: 0,
        still: false,
    })
}

// The cells of row p, one for each second state. Row by row: over the whole sheet at once each cell would cost a division to know its pair.
fn open_row<L: Label, A: System<L>, B: System<L>>(
    first: &A,
    second: &B,
    grid: Grid,
    p: u8,
    sheet: &mut [Strike],
)
    requires { place grid.width p 0 ≤ length sheet.old }
    ensures { sheet.new ≡ row_filled grid.width p grid.width (opened_strike L.Label.below (A.System.meaning first.now) (B.System.meaning second.now) p) sheet.old }
{
    let row = &mut sheet[grid.place(p, 0)..];
    write_first(row, usize::from(grid.width), |q| {
        opened_cell(first, second, p, q as u8)
    });
}

// the cell of the pair (p, q)
#[tactic(auto, unfolding(preorder::specs::Strikes::opened, crate::specs::Search::opened_strike))]
fn opened_cell<L: Label, A: System<L>, B: System<L>>(first: &A, second: &B, p: u8, q: u8) -> Strike
    ensures { result ≡ opened_strike L.Label.below (A.System.meaning first.now) (B.System.meaning second.now) p q }
{
    if first.label(p).is_below(&second.label(q)) {
        Strike::BLANK
    } else {
        Strike::UNFIT
    }
}
