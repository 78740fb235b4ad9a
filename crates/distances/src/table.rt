// The table of the task that arrays hold: backwards from the goal, the least entry settled first.
ghost use Rattle.std.specs.Prelude.{◌≡◌, ◌<◌, length};
ghost use Rattle.files.specs.Dense.{held};
ghost use Rattle.distances.specs.Entries.{table_entry, Low};
ghost use Rattle.distances.specs.Bounds.{NoneAbove};
ghost use Rattle.distances.specs.Rows.{row_states};
ghost use Rattle.distances.specs.Selecting.{Selecting, Fresh};
ghost use Rattle.distances.specs.Offers.{GoalInside, Begun, Rounded, CanSearch, TableIn};

use crate::selection::Selection;
use crate::tables::Tables;
use crate::{Entry, bounds, goal, states};
use files::arrays::Arrays;
use lookup::fact_rows::FactRows;
use lookup::moves::Moves;

// The entries before any step: nothing where the goal holds, none elsewhere.
fn begin(tables: &Tables, selection: &mut Selection, entries: &mut [Entry])
    requires fresh { Fresh (length entries.old) selection.old }
    requires states { length entries.old ≡ row_states tables.now.task.now.variables tables.now.task.now.sizes }
    requires goal { GoalInside tables.now.task.now }
    ensures { Begun tables.now.task.now selection.old entries.new selection.new }
{
    let task = tables.task;
    entries.fill(Entry::none());
    let free = goal::free(&task.goal, task.variables);
    let at = goal::number(&task.goal, tables.weights, task.variables);
    tables.offer(selection, entries, free, 0, at, Entry::at_goal());
}

// Settles a state, offers the steps to it, and gives the state that is to be settled next. No entry is
// above the bound.
fn round(
    tables: &Tables,
    selection: &mut Selection,
    entries: &mut [Entry],
    state: usize,
    bound: Entry,
) -> usize
    requires selecting { Selecting entries.old selection.old }
    requires states { length entries.old ≡ row_states tables.now.task.now.variables tables.now.task.now.sizes }
    requires below { state < length entries.old }
    requires low { Low (table_entry entries.old state) }
    requires above { NoneAbove (length entries.old) entries.old bound }
    ensures { Rounded tables.now.task.now state bound entries.old selection.old entries.new selection.new result }
{
    selection.settle(entries, state);
    tables.offer_steps(selection, entries, state, bound);
    selection.next(entries)
}

// Fills the entries, as many as the task has states, with its table, and gives the number of its start
// state. Weights and moves are those of the task; the rows are filled here.
pub fn search(
    task: &Arrays,
    entries: &mut [Entry],
    rows: &mut FactRows,
    moves: &Moves,
    weights: &[usize; 64],
) -> usize
    requires { CanSearch task.now (length entries.old) moves.now.actions weights.now }
    ensures { TableIn (held task.now) entries.new result }
{
    rows.fill(task);
    let tables = Tables {
        task,
        weights,
        rows,
        moves,
    };
    let mut selection = Selection::new(entries.len());
    begin(&tables, &mut selection, entries);
    let mut bound = bounds::greatest(entries);
    let mut s = selection.next(entries);
    // Kept: a `while`, since each round gives the state of the next, and a `for` has nothing to go over.
    while s < entries.len() {
        bound = bounds::before(entries, bound, s);
        s = round(&tables, &mut selection, entries, s, bound);
    }
    states::start_number(&task.sizes, &task.starts, task.variables)
}
