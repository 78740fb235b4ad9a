// The task with chosen actions alone, as arrays.
ghost use Rattle.std.specs.Prelude.{◌≡◌, ℕ, ◌+◌, ◌*◌, ◌<◌, get_or};
ghost use Rattle.files.specs.Clauses.{Writable};
ghost use Rattle.reduction.specs.Clauses.{Numbered};
ghost use Rattle.reduction.specs.Filled.{TaskChosen};

use crate::{renumber, rows};
use files::arrays::Arrays;
use files::limits;
use plans::ReducedAction;

// The rows of the chosen actions.
pub fn copy_rows(rows: &mut [u8], old: &[u8; 32768], chosen: &[u16; 512], count: usize)
    requires { Writable (Numbered chosen.now count 512) 32768 rows.old }
    ensures { (j i : ℕ) → j < count → i < 64 → get_or rows.new (64 * j + i) 0 ≡ get_or old.now (64 * get_or chosen.now j 0 + i) 0 }
{
    rows::set_rows(rows, limits::ROW, limits::ROW, count, |j, i| {
        let action = renumber::original(chosen, ReducedAction(j as u16));
        old[limits::ROW * action.0 as usize + i]
    });
}

// Fills arrays with the variables and the goal of a task, and with the chosen ones of its actions.
pub fn choose(chosen: &[u16; 512], count: usize, from: &Arrays, to: &mut Arrays)
    requires { Numbered chosen.now count 512 }
    ensures { TaskChosen chosen.now count from.now to.new }
{
    to.variables = from.variables;
    to.sizes = from.sizes;
    to.starts = from.starts;
    to.goal = from.goal;
    to.actions = count;
    renumber::map_actions(&mut to.costs, &from.costs, chosen, count);
    copy_rows(&mut to.conditions, &from.conditions, chosen, count);
    copy_rows(&mut to.effects, &from.effects, chosen, count);
}
