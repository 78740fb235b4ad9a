// The actions and the facts that a round gains.
ghost use Rattle.std.specs.Prelude.{◌&&◌, ◌*◌, ◌/◌, ◌%◌, ◌<◌, eqb, ltb, length};
ghost use Rattle.files.specs.Clauses.{WithinLimits, Writable};
ghost use Rattle.marking.specs.Clauses.{Among, WholeRow};
ghost use Rattle.marking.specs.Dense.{SetWhere, sets, achieves, names_at, row_names, names_anew};

use crate::cells;
use files::arrays::Arrays;
use files::limits;

// How many places a variable has, as a byte.
const VALUES: u8 = limits::MOST_VALUES as u8;

// Keeps the actions that set a variable to a value.
fn keep_setters(kept: &mut [u8; 512], task: &Arrays, v: usize, value: u8)
    requires { Among v 64 task.now.actions }
    ensures { SetWhere (sets task.now.effects v value task.now.actions) kept.old kept.new }
{
    for a in 0..task.actions {
        kept[a] = cells::raised(kept[a], task.effects[limits::ROW * a + v] == value);
    }
}

// Keeps the actions with an effect that is relevant and not linked, where those with an effect
// that was so before are kept.
pub(crate) fn gain_actions(
    kept: &mut [u8; 512],
    task: &Arrays,
    unlinked_before: &[u8; 2048],
    unlinked: &[u8; 2048],
)
    requires { WithinLimits task.now.variables task.now.actions }
    ensures { SetWhere (achieves task.now.effects task.now.actions unlinked_before.now unlinked.now (32 * task.now.variables)) kept.old kept.new }
{
    for i in 0..limits::MOST_VALUES * task.variables {
        if unlinked[i] != unlinked_before[i] {
            keep_setters(
                kept,
                task,
                i / limits::MOST_VALUES,
                (i % limits::MOST_VALUES) as u8,
            );
        }
    }
}

// Marks the first `size` values of a variable.
fn name_values(facts: &mut [u8], v: usize, size: usize)
    requires { Writable (v < 64) 2048 facts.old }
    ensures { SetWhere (λ i. eqb (i / 32) v && ltb (i % 32) size) facts.old facts.new }
{
    for d in 0..limits::MOST_VALUES {
        facts[limits::MOST_VALUES * v + d] = cells::raised(
            facts[limits::MOST_VALUES * v + d],
            d < size,
        );
    }
}

// Marks the facts that a cell of a row names: all of its variable's where that counts `whole`.
fn name_cell(facts: &mut [u8], whole: bool, v: usize, cell: u8, size: u8)
    requires { Writable (v < 64) 2048 facts.old }
    ensures { SetWhere (names_at whole v cell size) facts.old facts.new }
{
    if cell == limits::NO_PAIR {
        return;
    }
    if whole {
        name_values(facts, v, size as usize);
        return;
    }
    facts[limits::MOST_VALUES * v + (cell % VALUES) as usize] = 1;
}

// Marks the facts that the row at `base` names.
// Kept: the row as a list and a base, since the definition `row_names` is of any list and any base.
pub fn name_row(facts: &mut [u8], task: &Arrays, whole: bool, row: &[u8], base: usize)
    requires { Writable (WholeRow (length row.now) base task.now.variables) 2048 facts.old }
    ensures { SetWhere (row_names whole row.now base task.now.sizes task.now.variables) facts.old facts.new }
{
    for v in 0..task.variables {
        name_cell(facts, whole, v, row[base + v], task.sizes[v]);
    }
}

// Marks the facts that the conditions of counted actions name, where those that were counted
// before have theirs marked.
pub fn gain_facts(
    facts: &mut [u8],
    task: &Arrays,
    whole: bool,
    counted: &[u8; 512],
    counted_before: &[u8; 512],
)
    requires { Writable (WithinLimits task.now.variables task.now.actions) 2048 facts.old }
    ensures { SetWhere (names_anew whole task.now.conditions task.now.sizes task.now.variables counted.now counted_before.now task.now.actions) facts.old facts.new }
{
    for a in 0..task.actions {
        if counted[a] != counted_before[a] {
            name_row(facts, task, whole, &task.conditions, limits::ROW * a);
        }
    }
}
