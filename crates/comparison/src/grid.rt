// A grid over a slice of any cell type: the pair (p, q) has cell p × width + q.
ghost use Rattle.std.specs.Prelude.{◌≡◌, ◌*◌, slice_set};
ghost use Rattle.std.specs.List.{slice_get};
ghost use Rattle.comparison.specs.Grid.{place};

use systems::sheet::set_cell;

// how many rows a grid has, and how many cells a row has
#[derive(Clone, Copy, PartialEq, Eq, Debug)]
pub struct Grid {
    pub height: u8,
    pub width: u8,
}

impl Grid {
    pub fn len(&self) -> usize
        ensures { result ≡ self.now.height * self.now.width }
    {
        usize::from(self.height) * usize::from(self.width)
    }

    pub fn place(&self, p: u8, q: u8) -> usize
        ensures { result ≡ place self.now.width p q }
    {
        usize::from(p) * usize::from(self.width) + usize::from(q)
    }

    // the cell at the pair's place, if the slice reaches so far
    pub fn get<T: Copy>(&self, cells: &[T], p: u8, q: u8) -> Option<T>
        ensures { result ≡ slice_get cells.now (place self.now.width p q) }
    {
        cells.get(self.place(p, q)).copied()
    }

    // a pair whose place lies past the slice changes nothing
    pub fn set<T: Copy>(&self, cells: &mut [T], p: u8, q: u8, value: T)
        ensures { cells.new ≡ slice_set cells.old (place self.now.width p q) value }
    {
        set_cell(cells, self.place(p, q), value);
    }
}
