// Cells of a lent sheet, read and written where the sheet reaches so far.
ghost use Rattle.std.specs.Prelude.{◌≡◌, ℕ, ◌<◌, slice_index_or, slice_set};
ghost use Rattle.systems.specs.Cells.{written};

// cell i, or what is given for past the end
pub fn cell_or<T: Copy>(cells: &[T], i: usize, past: T) -> T
    ensures { result ≡ slice_index_or cells.now i past }
{
    cells.get(i).copied().unwrap_or(past)
}

// A cell past the end changes nothing. Not by `get_mut`: a proof knows no cell of the slice after it.
pub fn set_cell<T: Copy>(cells: &mut [T], i: usize, value: T)
    ensures { cells.new ≡ slice_set cells.old i value }
{
    if i < cells.len() {
        cells[i] = value;
    }
}

// Writes the first n cells, so far as there are so many: cell i gets what the closure answers for i, whichever function f that is.
pub fn write_first<T: Copy, F: Fn(usize) -> T>(cells: &mut [T], n: usize, value: F)
    requires { (i : ℕ) → i < n → F.pre value i }
    ensures { (f : ℕ → T) → ((i : ℕ) (x : T) → i < n → F.post value i x → x ≡ f i) → cells.new ≡ written n f cells.old }
{
    for i in 0..n {
        set_cell(cells, i, value(i));
    }
}
