// New numbers of values, and rows by new numbers.
ghost use Rattle.std.specs.Prelude.{◌≡◌, ℕ, ◌+◌, ◌*◌, ◌≤◌, ◌<◌, cond, eqb, length, get_or, slice_index_or};
ghost use Rattle.files.specs.Clauses.{Writable};
ghost use Rattle.reduction.specs.Clauses.{Numbered, KeptNumbered, RowSet};
ghost use Rattle.reduction.specs.Dense.{new_value_at, new_size_at, mapped_cell};

use crate::{named, rows};
use files::arrays::OriginArrays;
use files::limits;
use plans::{OriginalAction, ReducedAction};

// The number of a value: its rank where it is named, else the number of the values left over.
fn number(mark: u8, rank: u8, rest: u8) -> u8
    ensures { result ≡ cond (eqb mark 1) rank rest }
{
    if mark == 1 { rank } else { rest }
}

// The new numbers of a variable's values.
fn number_values(values: &mut [u8], named: &[u8; 2048], v: usize)
    requires { Writable (v < 64) 2048 values.old }
    ensures { RowSet values.old values.new (32 * v) 32 (new_value_at named.now v) }
{
    let rest = named::named_in(named, v);
    let mut rank: u8 = 0;
    for d in 0..limits::MOST_VALUES {
        let mark = named[limits::MOST_VALUES * v + d];
        values[limits::MOST_VALUES * v + d] = number(mark, rank, rest);
        rank += u8::from(mark == 1);
    }
}

// The new numbers of all values.
pub fn new_values(named: &[u8; 2048], variables: usize) -> [u8; 2048]
    requires { variables ≤ 64 }
    ensures { (v d : ℕ) → v < variables → d < 32 → get_or result (32 * v + d) 0 ≡ new_value_at named.now v d }
{
    let mut values = [0u8; 2048];
    for v in 0..variables {
        number_values(&mut values, named, v);
    }
    values
}

// How many values a kept variable has.
fn new_size(named: &[u8; 2048], v: usize, size: u8) -> u8
    requires { v < 64 }
    ensures { result ≡ new_size_at named.now v size }
{
    let count = named::named_in(named, v);
    if count < size { count + 1 } else { count }
}

// A cell of a row by new values.
pub fn mapped(values: &[u8; 2048], v: usize, cell: u8) -> u8
    requires { v < 64 }
    ensures { result ≡ mapped_cell values.now v cell }
{
    if cell == limits::NO_PAIR {
        return limits::NO_PAIR;
    }
    values[limits::MOST_VALUES * v + (cell % 32) as usize]
}

// A row of the kept variables.
pub fn map_row(
    row: &mut [u8],
    old: &[u8; 64],
    numbers: &[u8; 64],
    count: usize,
    values: &[u8; 2048],
)
    requires { Writable (Numbered numbers.now count 64) 64 row.old }
    ensures { (i : ℕ) → i < count → get_or row.new i 0 ≡ mapped_cell values.now (get_or numbers.now i 0) (get_or old.now (get_or numbers.now i 0) 0) }
{
    rows::set_row(row, 0, count, |i| {
        let v = numbers[i] as usize;
        mapped(values, v, old[v])
    });
}

// The number in the full task of an action of the reduced task.
pub fn original(originals: &[u16; 512], action: ReducedAction) -> OriginalAction
    requires { action.0 < 512 }
    ensures { result.0 ≡ get_or originals.now action.0 0 }
{
    let j = action.0 as usize;
    OriginalAction(originals[j])
}

// The rows of the kept actions, by the numbers of the kept variables.
pub fn map_rows(rows: &mut [u8], old: &[u8; 32768], kept: &OriginArrays, values: &[u8; 2048])
    requires { Writable (KeptNumbered kept.now.numbers kept.now.variables kept.now.originals kept.now.actions) 32768 rows.old }
    ensures { (j i : ℕ) → j < kept.now.actions → i < kept.now.variables → get_or rows.new (64 * j + i) 0 ≡ mapped_cell values.now (get_or kept.now.numbers i 0) (get_or old.now (64 * get_or kept.now.originals j 0 + get_or kept.now.numbers i 0) 0) }
{
    rows::set_rows(rows, limits::ROW, kept.variables, kept.actions, |j, i| {
        let action = original(&kept.originals, ReducedAction(j as u16));
        let v = kept.numbers[i] as usize;
        mapped(values, v, old[limits::ROW * action.0 as usize + v])
    });
}

// The entries of actions at the numbers of chosen ones.
pub fn map_actions<T: Copy>(cells: &mut [T], old: &[T], numbers: &[u16; 512], count: usize)
    requires numbers { Numbered numbers.now count 512 }
    requires room { 512 ≤ length cells.old }
    requires source { 512 ≤ length old.now }
    ensures { (j : ℕ) (d : T) → j < count → slice_index_or cells.new j d ≡ slice_index_or old.now (get_or numbers.now j 0) d }
{
    rows::set_row(cells, 0, count, |j| {
        let action = original(numbers, ReducedAction(j as u16));
        old[action.0 as usize]
    });
}

// The entries of variables at the numbers of kept ones.
pub fn map_variables(cells: &mut [u8], old: &[u8; 64], numbers: &[u8; 64], count: usize)
    requires { Writable (Numbered numbers.now count 64) 64 cells.old }
    ensures { (i : ℕ) → i < count → get_or cells.new i 0 ≡ get_or old.now (get_or numbers.now i 0) 0 }
{
    rows::set_row(cells, 0, count, |i| old[numbers[i] as usize]);
}

// The new domain sizes of the kept variables.
pub fn new_sizes(
    sizes: &mut [u8],
    old: &[u8; 64],
    named: &[u8; 2048],
    numbers: &[u8; 64],
    count: usize,
)
    requires { Writable (Numbered numbers.now count 64) 64 sizes.old }
    ensures { (i : ℕ) → i < count → get_or sizes.new i 0 ≡ new_size_at named.now (get_or numbers.now i 0) (get_or old.now (get_or numbers.now i 0) 0) }
{
    rows::set_row(sizes, 0, count, |i| {
        let v = numbers[i] as usize;
        new_size(named, v, old[v])
    });
}

// The new numbers of each kept variable's values, a row of 32 each.
pub fn value_rows(rows: &mut [u8], values: &[u8; 2048], numbers: &[u8; 64], count: usize)
    requires { Writable (Numbered numbers.now count 64) 2048 rows.old }
    ensures { (i d : ℕ) → i < count → d < 32 → get_or rows.new (32 * i + d) 0 ≡ get_or values.now (32 * get_or numbers.now i 0 + d) 0 }
{
    rows::set_rows(
        rows,
        limits::MOST_VALUES,
        limits::MOST_VALUES,
        count,
        |i, d| { values[limits::MOST_VALUES * numbers[i] as usize + d] },
    );
}
