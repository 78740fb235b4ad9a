// Threatened variables, linked facts and tracked variables.
ghost use Rattle.std.specs.Prelude.{◌≡◌, ℕ, ◌*◌, ◌≤◌, ◌<◌, get_or};
ghost use Rattle.files.specs.Below.{bit};
ghost use Rattle.files.specs.Clauses.{WithinLimits, ActionWithin, Writable};
ghost use Rattle.marking.specs.Clauses.{UnlinkedAre};
ghost use Rattle.marking.specs.Dense.{SetWhere, threatens, threatens_anew, linked_cell, unlinked_at, tracked_at};
ghost use Rattle.marking.specs.Levels.{level_number};

use crate::cells;
use crate::levels::Level;
use files::arrays::Arrays;
use files::limits;

// Marks the variables that the effects of an action set to other values than their start values.
fn threaten(threats: &mut [u8], task: &Arrays, action: usize)
    requires { Writable (ActionWithin action task.now.variables) 64 threats.old }
    ensures { SetWhere (threatens task.now.effects (64 * action) task.now.starts task.now.variables) threats.old threats.new }
{
    for v in 0..task.variables {
        let other = cells::other_than(task.effects[limits::ROW * action + v], task.starts[v]);
        threats[v] = cells::raised(threats[v], other);
    }
}

// Marks the variables that kept actions threaten, where those that were looked at before are marked.
pub fn threatened(threats: &mut [u8], task: &Arrays, kept: &[u8; 512], kept_before: &[u8; 512])
    requires { Writable (WithinLimits task.now.variables task.now.actions) 64 threats.old }
    ensures { SetWhere (threatens_anew task.now.effects task.now.starts task.now.variables kept.now kept_before.now task.now.actions) threats.old threats.new }
{
    for a in 0..task.actions {
        if kept[a] != kept_before[a] {
            threaten(threats, task, a);
        }
    }
}

// Whether a value is the linked one of its variable.
fn linked(level: Level, value: usize, start: u8, threat: u8) -> bool
    ensures { result ≡ linked_cell (level_number level) value start threat }
{
    if !level.has_links() {
        return false;
    }
    value == start as usize && threat == 0
}

// Whether the fact at a place is relevant and not linked.
fn is_unlinked(
    task: &Arrays,
    level: Level,
    facts: &[u8; 2048],
    threats: &[u8; 64],
    place: usize,
) -> bool
    requires { place < 2048 }
    ensures { result ≡ unlinked_at (level_number level) facts.now task.now.starts threats.now place }
{
    if facts[place] != 1 {
        return false;
    }
    let v = place / limits::MOST_VALUES;
    !linked(
        level,
        place % limits::MOST_VALUES,
        task.starts[v],
        threats[v],
    )
}

// The facts that are relevant and not linked.
pub(crate) fn unlinked(
    task: &Arrays,
    level: Level,
    facts: &[u8; 2048],
    threats: &[u8; 64],
) -> [u8; 2048]
    requires { task.now.variables ≤ 64 }
    ensures { UnlinkedAre result (level_number level) facts.now task.now.starts threats.now task.now.variables }
{
    let mut marks = [0; 2048];
    for i in 0..limits::MOST_VALUES * task.variables {
        marks[i] = u8::from(is_unlinked(task, level, facts, threats, i));
    }
    marks
}

// Whether a variable has an unlinked fact.
fn has_unlinked(unlinked: &[u8; 2048], v: usize) -> bool
    requires { v < 64 }
    ensures { result ≡ tracked_at unlinked.now v }
{
    for d in 0..limits::MOST_VALUES {
        if unlinked[limits::MOST_VALUES * v + d] == 1 {
            return true;
        }
    }
    false
}

// The tracked variables.
pub(crate) fn tracked(variables: usize, unlinked: &[u8; 2048]) -> [u8; 64]
    requires { variables ≤ 64 }
    ensures { (v : ℕ) → v < variables → get_or result v 0 ≡ bit (tracked_at unlinked.now v) }
{
    let mut marks = [0; 64];
    for v in 0..variables {
        marks[v] = u8::from(has_unlinked(unlinked, v));
    }
    marks
}
