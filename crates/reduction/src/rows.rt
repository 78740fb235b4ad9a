// Rows of cells, each cell set to what a function gives at its place.
ghost use Rattle.std.specs.Prelude.{◌≡◌, ℕ, ◌+◌, ◌*◌, ◌≤◌, ◌<◌, length, get_or, slice_index_or};

// Sets `count` cells from `to` on.
pub fn set_row<T: Copy, F: Fn(usize) -> T>(row: &mut [T], to: usize, count: usize, cell: F)
    requires room { to + count ≤ length row.old }
    requires callable { (i : ℕ) → i < count → F.pre cell i }
    ensures same { length row.new ≡ length row.old }
    ensures cells { (i : ℕ) (d : T) → i < count → F.post cell i (slice_index_or row.new (to + i) d) }
    ensures earlier { (i : ℕ) (d : T) → i < to → slice_index_or row.new i d ≡ slice_index_or row.old i d }
{
    for i in 0..count {
        row[to + i] = cell(i);
    }
}

// Sets the first `width` cells of each of `count` rows, which are `stride` cells apart.
pub fn set_rows<F: Fn(usize, usize) -> u8>(
    rows: &mut [u8],
    stride: usize,
    width: usize,
    count: usize,
    cell: F,
)
    requires room { stride * count ≤ length rows.old }
    requires within { width ≤ stride }
    requires callable { (j i : ℕ) → j < count → i < width → F.pre cell j i }
    ensures same { length rows.new ≡ length rows.old }
    ensures cells { (j i : ℕ) → j < count → i < width → F.post cell j i (get_or rows.new (stride * j + i) 0) }
{
    for j in 0..count {
        for i in 0..width {
            rows[stride * j + i] = cell(j, i);
        }
    }
}
