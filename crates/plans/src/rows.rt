// States and rows of values: whether a row's conditions hold, and the state after its effects.
ghost use Rattle.std.specs.Prelude.{◌≡◌, ℕ, ◌≤◌, get_or};
ghost use Rattle.std.proofs.Math.Option;
ghost use Rattle.files.specs.Clauses.{RowWithin};
ghost use Rattle.files.specs.Dense.{row_pairs};
ghost use Rattle.files.specs.Task.{value_in};
ghost use Rattle.plans.specs.Clauses.{ValuesCopied};
ghost use Rattle.plans.specs.State.{all_hold};
ghost use Rattle.plans.specs.Tally.{list_state, meets_cell, after_cell};

use files::limits;
use std::array;

// The first `count` cells of the row at `base`; no pair for the other variables.
pub(crate) fn row_at(rows: &[u8], base: usize, count: usize) -> [u8; 64]
    requires { RowWithin rows.now base count }
    ensures { row_pairs result 0 0 64 ≡ row_pairs rows.now base 0 count }
{
    let mut row = [limits::NO_PAIR; 64];
    for v in 0..count {
        row[v] = rows[base + v];
    }
    row
}

// The first `count` values; 0 for the other variables.
pub(crate) fn state_of(values: &[u8; 64], count: usize) -> [u8; 64]
    requires { count ≤ 64 }
    ensures { ValuesCopied result values.now count }
{
    let mut state = [0u8; 64];
    state[..count].copy_from_slice(&values[..count]);
    state
}

// Whether all conditions of a row hold in a state.
pub(crate) fn all_hold(row: [u8; 64], state: [u8; 64]) -> bool
    ensures { result ≡ all_hold (row_pairs row 0 0 64) (list_state state) }
{
    let mut held = true;
    for v in 0..limits::ROW {
        held = meets(row[v], state[v]) & held;
    }
    held
}

// Whether a value meets a condition's cell.
#[tactic(auto, unfolding(crate::specs::Tally::meets_cell))]
pub fn meets(condition: u8, value: u8) -> bool
    ensures { result ≡ meets_cell condition value }
{
    condition == limits::NO_PAIR || condition == value
}

// The state after the effects of a row.
pub(crate) fn applied(row: [u8; 64], state: [u8; 64]) -> [u8; 64]
    ensures { (v : ℕ) → get_or result v 0 ≡ Option.get_or (value_in (row_pairs row 0 0 64) v) (get_or state v 0) }
{
    array::from_fn(|v| cell_after(row[v], state[v]))
}

// The value after an effect cell.
#[tactic(auto, unfolding(crate::specs::Tally::after_cell))]
pub fn cell_after(effect: u8, value: u8) -> u8
    ensures { result ≡ after_cell effect value }
{
    if effect == limits::NO_PAIR {
        value
    } else {
        effect
    }
}
