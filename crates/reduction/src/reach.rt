// The actions that are reached from the start. Each action counts its conditions that are not reached:
// a fact that is newly reached lowers the counts of the actions that ask for it, and an action whose
// count comes to 0 is listed, so that each fact and each action is looked at once.
ghost use Rattle.std.specs.Prelude.{◌≡◌, true, eqb, get_or, ◌*◌, ◌≤◌};
ghost use Rattle.bits.specs.Sets.{in_words};
ghost use Rattle.files.specs.Accepted.{accepted_task};
ghost use Rattle.files.specs.Dense.{held};
ghost use Rattle.reduction.specs.Filled.{Marks};
ghost use Rattle.reduction.specs.Reach.{reached};
ghost use Rattle.reduction.specs.ReachDense.{cell_fact, row_facts, Askable, AskedCell, AsksNothing, AskedRow, Beginning, Begun, Lowerable, Lowered, RowLowerable, RowLowered, CellReaching, RowReaching, Reaches, Following, Followed};

use crate::{named, rows};
use bits::sets;
use files::arrays::Arrays;
use files::limits;
use plans::OriginalAction;

// How many places a variable has, as a byte.
const VALUES: u8 = limits::MOST_VALUES as u8;

// Puts an action into the set of the fact of a cell; 1 where there is one, else 0.
fn ask_cell(rows: &mut [u64], v: usize, cell: u8, a: usize) -> u8
    requires { Askable rows.old v a }
    ensures { AskedCell rows.old rows.new v cell a result }
{
    if cell == limits::NO_PAIR {
        return 0;
    }
    let place = limits::MOST_VALUES * v + (cell % VALUES) as usize;
    sets::add(rows, 8 * place, a);
    1
}

// Puts an action into the set of each of its conditions; how many there are.
fn ask_row(rows: &mut [u64], task: &Arrays, a: usize) -> u8
    requires { AsksNothing rows.old task.now.variables a }
    ensures { AskedRow rows.old rows.new task.now.conditions task.now.variables a result }
{
    let mut count: u8 = 0;
    for v in 0..task.variables {
        count += ask_cell(rows, v, task.conditions[limits::ROW * a + v], a);
    }
    count
}

// What is reached: a mark for each fact, for each action how many of its conditions are not reached, and
// the `found` actions that lack none, in the order in which they were found.
#[derive(Clone, Copy)]
struct Reach {
    facts: [u8; 2048],
    counts: [u8; 512],
    order: [u16; 512],
    found: usize,
}

impl Reach {
    // The sets of all conditions, each action's count, and the list of the actions without conditions.
    fn begin(&mut self, rows: &mut [u64], task: &Arrays)
        requires { Beginning task.now.variables task.now.actions rows.old self.old.found }
        ensures begun { Begun task.now.conditions task.now.variables task.now.actions rows.new self.new.counts self.new.order self.new.found }
        ensures facts { self.new.facts ≡ self.old.facts }
    {
        for a in 0..task.actions {
            let count = ask_row(rows, task, a);
            self.counts[a] = count;
            let action = OriginalAction(a as u16);
            self.found = named::push_action(&mut self.order, self.found, action, count == 0);
        }
    }

    // Takes 1 off an action's count, and lists the action where that comes to 0.
    fn lower(&mut self, a: usize)
        requires { Lowerable self.old.counts self.old.order self.old.found a }
        ensures lowered { Lowered self.old.counts self.old.order self.new.counts self.new.order self.old.found a self.new.found }
        ensures facts { self.new.facts ≡ self.old.facts }
    {
        let left = self.counts[a] - 1;
        self.counts[a] = left;
        let action = OriginalAction(a as u16);
        self.found = named::push_action(&mut self.order, self.found, action, left == 0);
    }

    // The same for each action that asks for the fact at a place.
    fn lower_row(&mut self, rows: &[u64; 16384], place: usize, actions: usize)
        requires { RowLowerable self.old.counts self.old.order (in_words rows.now (8 * place)) place actions self.old.found }
        ensures lowered { RowLowered self.old.counts self.old.order self.new.counts self.new.order (in_words rows.now (8 * place)) actions self.old.found self.new.found }
        ensures facts { self.new.facts ≡ self.old.facts }
    {
        for a in sets::numbers_in(rows, 8 * place, 0, actions) {
            self.lower(a);
        }
    }

    // Reaches the fact of a cell, where there is one and it is not reached yet.
    fn reach_cell(&mut self, rows: &[u64; 16384], v: usize, cell: u8, actions: usize)
        requires { CellReaching rows.now v actions self.old.facts self.old.counts self.old.order self.old.found }
        ensures { Reaches (cell_fact v cell) rows.now actions self.old.facts self.old.order self.old.found self.new.facts self.new.counts self.new.order self.new.found }
    {
        if cell == limits::NO_PAIR {
            return;
        }
        let place = limits::MOST_VALUES * v + (cell % VALUES) as usize;
        if self.facts[place] == 1 {
            return;
        }
        self.facts[place] = 1;
        self.lower_row(rows, place, actions);
    }

    // The same for the cells of the row at `base`.
    fn reach_row(&mut self, rows: &[u64; 16384], row: &[u8], base: usize, task: &Arrays)
        requires { RowReaching rows.now row.now base task.now.variables task.now.actions self.old.facts self.old.counts self.old.order self.old.found }
        ensures { Reaches (row_facts row.now base task.now.variables) rows.now task.now.actions self.old.facts self.old.order self.old.found self.new.facts self.new.counts self.new.order self.new.found }
    {
        for v in 0..task.variables {
            self.reach_cell(rows, v, row[base + v], task.actions);
        }
    }

    // Reaches the effects of the listed actions, each in its turn.
    // Kept: a `while` is plainer, since a `for` fixes its end first, and the list grows under the loop.
    fn follow(&mut self, rows: &[u64; 16384], task: &Arrays)
        requires { Following rows.now task.now.variables task.now.actions self.old.facts self.old.counts self.old.order self.old.found }
        ensures { Followed rows.now task.now.effects task.now.variables task.now.actions self.old.facts self.new.facts self.new.counts }
    {
        let mut next: usize = 0;
        while next < self.found {
            let base = limits::ROW * self.order[next] as usize;
            self.reach_row(rows, &task.effects, base, task);
            next += 1;
        }
    }
}

// The reached actions of the task that arrays hold: 1 for each, else 0.
pub fn reached(task: &Arrays) -> [u8; 512]
    requires { accepted_task (held task.now) ≡ true }
    ensures { Marks result task.now.actions (reached (held task.now)) }
{
    let mut rows = [0u64; 16384];
    let mut reach = Reach {
        facts: [0; 2048],
        counts: [0; 512],
        order: [0; 512],
        found: 0,
    };
    reach.begin(&mut rows, task);
    reach.reach_row(&rows, &task.starts, 0, task);
    reach.follow(&rows, task);
    let mut marks = [0u8; 512];
    rows::set_row(
        &mut marks,
        0,
        task.actions,
        |a| u8::from(reach.counts[a] == 0),
    );
    marks
}
