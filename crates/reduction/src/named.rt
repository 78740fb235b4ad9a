// Named facts, and the variables and actions that are kept.
ghost use Rattle.std.specs.Prelude.{◌≡◌, ℕ, ◌≤◌, ◌<◌, get_or, length};
ghost use Rattle.files.specs.Below.{bit};
ghost use Rattle.files.specs.Clauses.{IsAtMost, WithinLimits, Writable};
ghost use Rattle.marking.specs.Dense.{is_marked};
ghost use Rattle.reduction.specs.Clauses.{MarksWithin, Pushable, Pushed, ChosenAre};
ghost use Rattle.reduction.specs.Dense.{named_at, changed_at, named_in, other_named, keeps_at};

use files::arrays::Arrays;
use files::limits;
use marking::{gains, links};
use plans::OriginalAction;

// The action marks of a task as an array.
pub fn kept_actions(marks: &[u8], actions: usize) -> [u8; 512]
    requires { MarksWithin marks.now actions }
    ensures { (a : ℕ) → a < actions → get_or result a 0 ≡ get_or marks.now a 0 }
{
    let mut kept = [0u8; 512];
    kept[..actions].copy_from_slice(&marks[..actions]);
    kept
}

// The named facts: the goal's, and all conditions of kept actions, covered ones too.
pub fn named_facts(task: &Arrays, kept: &[u8; 512]) -> [u8; 2048]
    requires { WithinLimits task.now.variables task.now.actions }
    ensures { (i : ℕ) → i < 2048 → get_or result i 0 ≡ bit (named_at task.now.goal task.now.conditions task.now.sizes kept.now task.now.variables task.now.actions i) }
{
    let none = [0u8; 512];
    let mut facts = [0u8; 2048];
    gains::name_row(&mut facts, task, false, &task.goal, 0);
    gains::gain_facts(&mut facts, task, false, kept, &none);
    facts
}

// The variables that kept actions set to other values than their start values.
pub fn changed(task: &Arrays, kept: &[u8; 512]) -> [u8; 64]
    requires { WithinLimits task.now.variables task.now.actions }
    ensures { (v : ℕ) → v < 64 → get_or result v 0 ≡ bit (changed_at task.now.effects task.now.starts kept.now task.now.variables task.now.actions v) }
{
    let none = [0u8; 512];
    let mut marks = [0u8; 64];
    links::threatened(&mut marks, task, kept, &none);
    marks
}

// How many values of a variable are named.
pub fn named_in(named: &[u8; 2048], v: usize) -> u8
    requires { v < 64 }
    ensures { IsAtMost result (named_in named.now v) 32 }
{
    let mut count: u8 = 0;
    for d in 0..limits::MOST_VALUES {
        count += u8::from(named[limits::MOST_VALUES * v + d] == 1);
    }
    count
}

// Whether a variable has a named value other than the start value.
fn other_named(named: &[u8; 2048], start: u8, v: usize) -> bool
    requires { v < 64 }
    ensures { result ≡ other_named named.now start v }
{
    for d in 0..32u8 {
        if named[limits::MOST_VALUES * v + d as usize] == 1 && d != start {
            return true;
        }
    }
    false
}

// Whether a variable is kept: it has a named fact and is not settled.
fn keeps(named: &[u8; 2048], changed: &[u8; 64], starts: &[u8; 64], v: usize) -> bool
    requires { v < 64 }
    ensures { result ≡ keeps_at named.now changed.now starts.now v }
{
    if named_in(named, v) == 0 {
        return false;
    }
    if changed[v] == 1 {
        return true;
    }
    other_named(named, starts[v], v)
}

// The numbers of the kept variables, in order; how many there are.
pub fn kept_variables(
    numbers: &mut [u8],
    variables: usize,
    named: &[u8; 2048],
    changed: &[u8; 64],
    starts: &[u8; 64],
) -> usize
    requires { Writable (variables ≤ 64) 64 numbers.old }
    ensures { ChosenAre numbers.new result variables (keeps_at named.now changed.now starts.now) }
{
    let mut count: usize = 0;
    for v in 0..variables {
        count = push(numbers, count, v as u8, keeps(named, changed, starts, v));
    }
    count
}

// The numbers of the kept actions, in order; how many there are.
pub fn originals(numbers: &mut [u16], kept: &[u8; 512], actions: usize) -> usize
    requires { Writable (actions ≤ 512) 512 numbers.old }
    ensures { ChosenAre numbers.new result actions (is_marked kept.now) }
{
    let mut count: usize = 0;
    for a in 0..actions {
        count = push_action(numbers, count, OriginalAction(a as u16), kept[a] == 1);
    }
    count
}

// Appends an action's number where the test passes.
pub fn push_action(numbers: &mut [u16], count: usize, action: OriginalAction, test: bool) -> usize
    requires { Pushable numbers.old count }
    ensures { Pushed numbers.old numbers.new count action.0 test result }
{
    push(numbers, count, action.0, test)
}

// Appends a number where the test passes.
fn push<T: Copy>(numbers: &mut [T], count: usize, number: T, test: bool) -> usize
    requires { Pushable numbers.old count }
    ensures { Pushed numbers.old numbers.new count number test result }
{
    if !test {
        return count;
    }
    numbers[count] = number;
    count + 1
}
