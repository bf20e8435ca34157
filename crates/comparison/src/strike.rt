// The cells of a strike sheet.
ghost use Rattle.std.specs.Prelude.{◌≡◌};
ghost use Rattle.comparison.specs.Sheet.{cells_of, strike_of};

use crate::grid::Grid;

// The round that struck a pair, and the reason: its kind, an action and a target state.
#[derive(Clone, Copy, PartialEq, Eq, Debug)]
pub struct Strike {
    pub round: u16,
    // a plain number: a narrower type would ask more of who lends the sheet
    pub kind: u8,
    pub action: u8,
    pub target: u8,
}

impl Strike {
    // the cell of a pair that is not struck
    pub const BLANK: Strike = Strike {
        round: u16::MAX,
        kind: 0,
        action: 0,
        target: 0,
    };

    // the cell of a pair whose labels fail
    pub const UNFIT: Strike = Strike {
        round: 0,
        kind: 0,
        action: 0,
        target: 0,
    };
}

// The cell that a sheet holds for a pair, blank where the sheet does not reach so far. Grid and sheet are two: a grid is the layout of
// cells of any type, lent to be read or to be written.
pub fn strike_at(grid: Grid, sheet: &[Strike], p: u8, q: u8) -> Strike
    ensures { result ≡ strike_of (cells_of grid.width sheet.now p q) }
{
    grid.get(sheet, p, q).unwrap_or(Strike::BLANK)
}
