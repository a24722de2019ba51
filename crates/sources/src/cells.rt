// Lists of cells.
ghost use Rattle.std.specs.Prelude.{◌≡◌, pos, slice_index_or};

// What a cell holds, 0 beyond the last.
pub fn value_at(values: &[i32], index: usize) -> i32
    ensures { result ≡ slice_index_or values.now index (pos 0) }
{
    values.get(index).copied().unwrap_or(0)
}
