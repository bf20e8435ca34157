// The pairs that a round calls related, as masks by first state and by second state.
ghost use Rattle.std.specs.Prelude.{◌≡◌, ◌≤◌};
ghost use Rattle.comparison.specs.Search.{from_round, mask_of, related_in, relation_of, turned};
ghost use Rattle.comparison.specs.Sheet.{cells_of};

use crate::grid::Grid;
use crate::strike::{Strike, strike_at};
use systems::masks::{contains, set_where};
use systems::sheet::write_first;

// The second states that each first state is related to, and the first states that each second state is related to: 64 rows for any
// counts, as nothing here takes memory.
#[derive(Clone, Copy)]
pub(crate) struct Related {
    pub(crate) rows: [u64; 64],
    pub(crate) columns: [u64; 64],
    ghost same: { relation_of columns ≡ turned (relation_of rows) },
}

impl Related {
    // the pairs that round k calls related
    pub(crate) fn in_sheet(grid: Grid, sheet: &[Strike], k: u16) -> Self
        requires { (grid.height ≤ 64) × (grid.width ≤ 64) }
        ensures { relation_of result.rows ≡ related_in grid.height grid.width k (cells_of grid.width sheet.now) }
    {
        let rows = related_rows(grid, sheet, k);
        let columns = columns(&rows);
        Related { rows, columns }
    }
}

// the mask of each first state: the second states that round k calls it related to
fn related_rows(grid: Grid, sheet: &[Strike], k: u16) -> [u64; 64]
    requires { (grid.height ≤ 64) × (grid.width ≤ 64) }
    ensures { relation_of result ≡ related_in grid.height grid.width k (cells_of grid.width sheet.now) }
{
    let mut rows = [0; 64];
    write_first(&mut rows, usize::from(grid.height), |p| {
        related_row(grid, sheet, k, p as u8)
    });
    rows
}

fn related_row(grid: Grid, sheet: &[Strike], k: u16, p: u8) -> u64
    ensures { result ≡ mask_of grid.width (from_round k (cells_of grid.width sheet.now)) p }
{
    set_where(grid.width, |q| strike_at(grid, sheet, p, q).round >= k)
}

// the masks of the relation turned round
fn columns(rows: &[u64; 64]) -> [u64; 64]
    ensures { relation_of result ≡ turned (relation_of rows.now) }
{
    let mut columns = [0; 64];
    write_first(&mut columns, 64, |q| column(rows, q as u8));
    columns
}

fn column(rows: &[u64; 64], q: u8) -> u64
    ensures { result ≡ mask_of 64 (turned (relation_of rows.now)) q }
{
    set_where(64, |p| contains(rows[usize::from(p)], q))
}
