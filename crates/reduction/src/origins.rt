// Origins as arrays: the own origins of a task, origins composed, and whether a turn moves nothing.
ghost use Rattle.std.specs.Prelude.{◌≡◌, ℕ, ◌+◌, ◌*◌, ◌≤◌, ◌<◌, get_or};
ghost use Rattle.files.specs.Clauses.{OriginWithin, RowWithin, Writable};
ghost use Rattle.reduction.specs.Composed.{Owns, Composable, Composes, row_unmoved, unmoved_at};
ghost use Rattle.reduction.specs.Clauses.{Numbered, KeptNumbered};
ghost use Rattle.reduction.specs.Dense.{mapped_cell};

use crate::{renumber, rows};
use files::arrays::{Arrays, OriginArrays};
use files::limits;

// Fills arrays with the own origins of a task.
pub fn own(origin: &mut OriginArrays, task: &Arrays)
    requires { OriginWithin task.now.variables task.now.actions task.now.sizes }
    ensures { Owns task.now origin.new }
{
    let variables = task.variables;
    origin.variables = variables;
    origin.actions = task.actions;
    origin.sizes = task.sizes;
    rows::set_row(&mut origin.numbers, 0, variables, |v| v as u8);
    rows::set_rows(
        &mut origin.values,
        limits::MOST_VALUES,
        limits::MOST_VALUES,
        variables,
        |_, d| d as u8,
    );
    rows::set_row(&mut origin.originals, 0, task.actions, |a| a as u16);
}

// The rows of the kept variables: what the later values make of the first values.
fn compose_values(
    rows: &mut [u8],
    first: &[u8; 2048],
    numbers: &[u8; 64],
    count: usize,
    later: &[u8; 2048],
)
    requires { Writable (Numbered numbers.now count 64) 2048 rows.old }
    ensures { (i d : ℕ) → i < count → d < 32 → get_or rows.new (32 * i + d) 0 ≡ mapped_cell later.now i (get_or first.now (32 * get_or numbers.now i 0 + d) 0) }
{
    rows::set_rows(
        rows,
        limits::MOST_VALUES,
        limits::MOST_VALUES,
        count,
        |i, d| {
            let v = numbers[i] as usize;
            renumber::mapped(later, i, first[limits::MOST_VALUES * v + d])
        },
    );
}

// Composes origins with those of a later turn.
pub fn compose(origin: &mut OriginArrays, later: &OriginArrays)
    requires { KeptNumbered later.now.numbers later.now.variables later.now.originals later.now.actions }
    ensures { Composable origin.old later.now → Composes origin.old later.now origin.new }
{
    let numbers = origin.numbers;
    let sizes = origin.sizes;
    let values = origin.values;
    let originals = origin.originals;
    let variables = later.variables;
    origin.variables = variables;
    origin.actions = later.actions;
    renumber::map_variables(&mut origin.numbers, &numbers, &later.numbers, variables);
    renumber::map_variables(&mut origin.sizes, &sizes, &later.numbers, variables);
    compose_values(
        &mut origin.values,
        &values,
        &later.numbers,
        variables,
        &later.values,
    );
    renumber::map_actions(
        &mut origin.originals,
        &originals,
        &later.originals,
        later.actions,
    );
}

// Whether each value of the row at `base` is its own new value.
fn row_unmoved(values: &[u8], base: usize, size: u8) -> bool
    requires { RowWithin values.now base size }
    ensures { result ≡ row_unmoved values.now base size }
{
    for d in 0..size {
        if values[base + d as usize] != d {
            return false;
        }
    }
    true
}

// Whether a turn leaves as many variables and actions as there were, and each value its own.
pub fn unmoved(task: &Arrays, later: &OriginArrays) -> bool
    requires { OriginWithin later.now.variables later.now.actions task.now.sizes }
    ensures { result ≡ unmoved_at task.now.variables task.now.actions later.now.variables later.now.actions task.now.sizes later.now.values }
{
    if later.variables != task.variables {
        return false;
    }
    if later.actions != task.actions {
        return false;
    }
    for v in 0..task.variables {
        if !row_unmoved(&later.values, limits::MOST_VALUES * v, task.sizes[v]) {
            return false;
        }
    }
    true
}
