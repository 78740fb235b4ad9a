// Task files written from arrays, under a signer, into a buffer that is long enough.
ghost use Rattle.std.specs.Prelude.{◌≡◌, ◌++◌, ◌+◌, ◌*◌, ◌≤◌, length};
ghost use Rattle.files.specs.Below.{tabulate};
ghost use Rattle.files.specs.Bytes.{u16_bytes, u32_bytes, placed};
ghost use Rattle.files.specs.Clauses.{IsBelow, IsAtMost, WithinLimits, ActionWithin, RowWithin, Writable, Written};
ghost use Rattle.files.specs.Dense.{row_pairs, row_variable, row_action, held, arrays};
ghost use Rattle.files.specs.Lengths.{action_needed, actions_needed, task_needed, task_length};
ghost use Rattle.files.specs.Outcome.{overwrite};
ghost use Rattle.files.specs.Records.{record_bytes};
ghost use Rattle.files.specs.TaskFile.{pair_bytes, variable_bytes, action_body, action_bytes, task_file};

use crate::arrays::Arrays;
use crate::units::Minutes;
use crate::{bytes, limits, records};

// How many pairs the first `count` cells of the row at `base` have.
fn pairs_in(rows: &[u8], base: usize, count: usize) -> usize
    requires { RowWithin rows.now base count }
    ensures { IsAtMost result (length (row_pairs rows.now base 0 count)) 64 }
{
    let row = &rows[base..base + count];
    row.iter()
        .filter(|value| **value != limits::NO_PAIR)
        .count()
}

fn put_pair(buffer: &mut [u8], at: usize, variable: usize, value: usize)
    requires { at + 4 ≤ length buffer.old }
    ensures { buffer.new ≡ placed buffer.old at (u16_bytes variable ++ u16_bytes value) }
{
    bytes::put_u16(buffer, at, variable);
    bytes::put_u16(buffer, at + 2, value);
}

// Writes those pairs from `at` on, and says where they end.
fn put_pairs(buffer: &mut [u8], at: usize, rows: &[u8], base: usize, count: usize) -> usize
    requires { Writable (RowWithin rows.now base count) (at + 4 * length (row_pairs rows.now base 0 count)) buffer.old }
    ensures { Written buffer.old buffer.new at (pair_bytes (row_pairs rows.now base 0 count)) result (at + 4 * length (row_pairs rows.now base 0 count)) }
{
    let mut place = at;
    for v in 0..count {
        let value = rows[base + v];
        if value != limits::NO_PAIR {
            put_pair(buffer, place, v, value as usize);
            place += 4;
        }
    }
    place
}

// Writes the record of a variable.
fn put_variable(buffer: &mut [u8], at: usize, size: usize, start: usize)
    requires { at + 8 ≤ length buffer.old }
    ensures { buffer.new ≡ placed buffer.old at (record_bytes 2 (u16_bytes size ++ u16_bytes start)) }
{
    records::put_head(buffer, at, records::VARIABLE, 4);
    bytes::put_u16(buffer, at + 4, size);
    bytes::put_u16(buffer, at + 6, start);
}

// Writes the header.
fn put_header(buffer: &mut [u8], variables: usize, actions: usize)
    requires { 8 ≤ length buffer.old }
    ensures { buffer.new ≡ placed buffer.old 0 (record_bytes 1 (u16_bytes variables ++ u16_bytes actions)) }
{
    records::put_head(buffer, 0, records::HEADER, 4);
    bytes::put_u16(buffer, 4, variables);
    bytes::put_u16(buffer, 6, actions);
}

// Writes cost and counts of an action behind its record's head.
fn put_counts(buffer: &mut [u8], at: usize, cost: Minutes, conditions: usize, effects: usize)
    requires { at + 8 ≤ length buffer.old }
    ensures { buffer.new ≡ placed buffer.old at (u32_bytes cost.0 ++ u16_bytes conditions ++ u16_bytes effects) }
{
    bytes::put_u32(buffer, at, cost.0 as usize);
    bytes::put_u16(buffer, at + 4, conditions);
    bytes::put_u16(buffer, at + 6, effects);
}

impl Arrays {
    // How many bytes the file of the task takes.
    #[tactic(auto, unfolding(crate::specs::Lengths::task_needed))]
    pub fn file_length(&self) -> usize
        requires { WithinLimits self.now.variables self.now.actions }
        ensures { IsBelow result (task_length self.now) 300000 }
    {
        let pairs = pairs_in(&self.goal, 0, self.variables);
        24 + 8 * self.variables + 4 * pairs + self.actions_length()
    }

    // How many bytes the record of action `a` takes.
    #[tactic(auto, unfolding(crate::specs::Lengths::action_needed))]
    fn action_length(&self, a: usize) -> usize
        requires { ActionWithin a self.now.variables }
        ensures { IsAtMost result (action_needed self.now.variables self.now.conditions self.now.effects a) 524 }
    {
        let base = limits::ROW * a;
        let asked = pairs_in(&self.conditions, base, self.variables);
        let set = pairs_in(&self.effects, base, self.variables);
        12 + 4 * asked + 4 * set
    }

    // How many bytes the records of the actions take.
    fn actions_length(&self) -> usize
        requires { WithinLimits self.now.variables self.now.actions }
        ensures { IsAtMost result (actions_needed self.now.variables self.now.conditions self.now.effects 0 self.now.actions) (524 * self.now.actions) }
    {
        let mut bytes = 0;
        for a in 0..self.actions {
            bytes += self.action_length(a);
        }
        bytes
    }

    // Writes the file of the task.
    pub fn write(&self, buffer: &mut [u8], signer: usize)
        requires { Writable (WithinLimits self.now.variables self.now.actions) (task_length self.now) buffer.old }
        ensures { buffer.new ≡ overwrite buffer.old (task_file (held self.now) signer) }
    {
        put_header(buffer, self.variables, self.actions);
        self.put_variables(buffer);
        let first = self.put_goal(buffer, 8 + 8 * self.variables);
        let end = self.put_actions(buffer, first);
        records::put_sign_off(buffer, end, signer);
    }

    // Writes the records of the variables from offset 8 on.
    fn put_variables(&self, buffer: &mut [u8])
        requires { Writable (self.now.variables ≤ 64) (8 + 8 * self.now.variables) buffer.old }
        ensures { buffer.new ≡ placed buffer.old 8 (variable_bytes (tabulate self.now.variables (row_variable self.now.sizes self.now.starts))) }
    {
        for v in 0..self.variables {
            let size = self.sizes[v] as usize;
            put_variable(buffer, 8 + 8 * v, size, self.starts[v] as usize);
        }
    }

    // Writes the goal record at `at`, and says where it ends.
    fn put_goal(&self, buffer: &mut [u8], at: usize) -> usize
        requires { Writable (self.now.variables ≤ 64) (at + 4 + 4 * length (row_pairs self.now.goal 0 0 self.now.variables)) buffer.old }
        ensures { Written buffer.old buffer.new at (record_bytes 3 (pair_bytes (row_pairs self.now.goal 0 0 self.now.variables))) result (at + 4 + 4 * length (row_pairs self.now.goal 0 0 self.now.variables)) }
    {
        let pairs = pairs_in(&self.goal, 0, self.variables);
        records::put_head(buffer, at, records::GOAL, 4 * pairs);
        put_pairs(buffer, at + 4, &self.goal, 0, self.variables)
    }

    // Writes the record of action `a`, and says where it ends.
    fn put_action(&self, buffer: &mut [u8], at: usize, a: usize) -> usize
        requires { Writable (ActionWithin a self.now.variables) (at + action_needed self.now.variables self.now.conditions self.now.effects a) buffer.old }
        ensures { Written buffer.old buffer.new at (record_bytes 4 (action_body (row_action self.now.variables self.now.costs self.now.conditions self.now.effects a))) result (at + action_needed self.now.variables self.now.conditions self.now.effects a) }
    {
        let base = limits::ROW * a;
        let asked = pairs_in(&self.conditions, base, self.variables);
        let set = pairs_in(&self.effects, base, self.variables);
        records::put_head(buffer, at, records::ACTION, 8 + 4 * asked + 4 * set);
        put_counts(buffer, at + 4, Minutes::from(self.costs[a]), asked, set);
        let middle = put_pairs(buffer, at + 12, &self.conditions, base, self.variables);
        put_pairs(buffer, middle, &self.effects, base, self.variables)
    }

    // Writes the records of the actions from `at` on, and says where they end.
    fn put_actions(&self, buffer: &mut [u8], at: usize) -> usize
        requires { Writable (WithinLimits self.now.variables self.now.actions) (at + actions_needed self.now.variables self.now.conditions self.now.effects 0 self.now.actions) buffer.old }
        ensures { Written buffer.old buffer.new at (action_bytes (tabulate self.now.actions (row_action self.now.variables self.now.costs self.now.conditions self.now.effects))) result (at + actions_needed self.now.variables self.now.conditions self.now.effects 0 self.now.actions) }
    {
        let mut place = at;
        for a in 0..self.actions {
            place = self.put_action(buffer, place, a);
        }
        place
    }
}
