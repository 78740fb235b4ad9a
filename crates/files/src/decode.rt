// An accepted task file into dense arrays: a number per variable and action, and for each action
// a row of 64 cells, one per variable, in which 255 stands for no pair.
ghost use Rattle.std.specs.Prelude.{◌≡◌, ◌+◌, ◌*◌, ◌^◌, ◌<◌, ◌≤◌, length};
ghost use Rattle.files.specs.Clauses.{Readable, ActionAt, TaskRead, CostsOf};
ghost use Rattle.files.specs.Outcome.{outcome_of};
ghost use Rattle.files.specs.Records.{offset_limit};
ghost use Rattle.files.specs.Rows.{cleared, stored, filled, variables_stored, goal_stored, action_stored, actions_stored};
ghost use Rattle.files.specs.TaskFile.{pairs_from, variables_from, action_from, actions_from, actions_place, check_task, task_of};

use crate::arrays::Arrays;
use crate::reader::Reader;
use crate::refusals::Refusal;
use crate::{bytes, limits, records, task};

// Clears the row of 64 cells at `base`.
pub fn clear_row(row: &mut [u8], base: usize)
    requires { base + 64 ≤ length row.old }
    ensures { row.new ≡ cleared row.old base 64 }
{
    row[base..base + limits::ROW].fill(limits::NO_PAIR);
}

// Stores a value in the cell of a variable below 64.
#[tactic(auto, unfolding(crate::specs::Rows::stored))]
pub fn store(row: &mut [u8], base: usize, variable: usize, value: usize)
    requires { base + 64 ≤ length row.old }
    ensures { row.new ≡ stored row.old base variable value }
{
    if variable < limits::ROW {
        row[base + variable] = (value % 256) as u8;
    }
}

// Stores the `count` pairs that stand at `at`.
fn fill_row(row: &mut [u8], base: usize, s: &[u8], at: usize, count: usize)
    requires { Readable (base + 64) row.old (at + 4 * count) (2 ^ 64) }
    ensures { row.new ≡ filled row.old base (pairs_from s.now at count) }
{
    for i in 0..count {
        let variable = bytes::u16_at(s, at + 4 * i);
        let value = bytes::u16_at(s, at + 4 * i + 2);
        store(row, base, variable, value);
    }
}

impl Arrays {
    // Checks a task file and, where it is accepted, reads its task; where it is refused, the arrays are
    // left as they were.
    pub fn read(&mut self, file: &[u8]) -> Result<(), Refusal>
        ensures { TaskRead file.now self.old self.new (outcome_of result) }
    {
        crate::check_task(file)?;
        self.variables = task::variables_in(file);
        self.actions = task::actions_in(file);
        self.read_variables(file);
        self.read_goal(file);
        self.read_actions(file);
        Ok(())
    }

    // The domain sizes and start values of the variables.
    fn read_variables(&mut self, s: &[u8])
        requires { self.old.variables ≤ 64 }
        ensures { self.new ≡ variables_stored 0 (variables_from s.now 8 self.old.variables) self.old }
    {
        for v in 0..self.variables {
            let at = 8 * v + 8;
            self.sizes[v] = (bytes::u16_at(s, at + 4) % 256) as u8;
            self.starts[v] = (bytes::u16_at(s, at + 6) % 256) as u8;
        }
    }

    #[tactic(auto, unfolding(crate::specs::TaskFile::task_of))]
    fn read_goal(&mut self, s: &[u8])
        ensures { self.new ≡ goal_stored (task_of s.now).goal self.old }
    {
        let at = task::goal_place(s);
        clear_row(&mut self.goal, 0);
        fill_row(
            &mut self.goal,
            0,
            s,
            at + 4,
            records::body_length(s, at) / 4,
        );
    }

    // The cost, the conditions and the effects of the action record at `at`, as those of action `a`.
    #[tactic(auto, unfolding(crate::specs::TaskFile::action_from))]
    fn read_action(&mut self, s: &[u8], at: usize, a: usize)
        requires { ActionAt a at }
        ensures { self.new ≡ action_stored a (action_from s.now at) self.old }
    {
        let base = limits::ROW * a;
        self.costs[a] = read_cost(s, at);
        clear_row(&mut self.conditions, base);
        fill_row(
            &mut self.conditions,
            base,
            s,
            at + 12,
            task::conditions_in(s, at),
        );
        clear_row(&mut self.effects, base);
        fill_row(
            &mut self.effects,
            base,
            s,
            task::effects_place(s, at),
            task::effects_in(s, at),
        );
    }

    // The actions, from the first one's record on.
    fn read_actions(&mut self, s: &[u8])
        requires { self.old.actions ≤ 512 }
        ensures { self.new ≡ actions_stored 0 (actions_from s.now (actions_place s.now) self.old.actions) self.old }
    {
        let mut reader = Reader {
            file: s,
            at: task::actions_place(s),
        };
        for a in 0..self.actions {
            self.read_action(s, reader.at, a);
            reader = reader.past();
        }
    }
}

// The cost of the action record at `at`.
#[tactic(auto, unfolding(crate::specs::TaskFile::action_from))]
fn read_cost(s: &[u8], at: usize) -> u32
    requires { at < offset_limit }
    ensures { result ≡ (action_from s.now at).cost }
{
    bytes::u32_at(s, at + 4) as u32
}

// The costs of the actions of an accepted task file.
// Kept: a loop of its own beside that of `Arrays::read`, which fills rows as well: no plainer as one with a test.
pub fn read_costs(file: &[u8], costs: &mut [u32; 512])
    requires { (check_task file.now).number ≡ 0 }
    ensures { CostsOf (task_of file.now) costs.new }
{
    let mut reader = Reader {
        file,
        at: task::actions_place(file),
    };
    for a in 0..task::actions_in(file) {
        costs[a] = read_cost(file, reader.at);
        reader = reader.past();
    }
}
