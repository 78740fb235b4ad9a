// The table of what could cover what, by cost and conditions: for each action a set of actions, in
// eight words.
ghost use Rattle.std.specs.Prelude.{◌≡◌, ℕ, ◌+◌, ◌*◌, ◌<◌, ◌&&◌, ltb, get_or};
ghost use Rattle.bits.specs.Sets.{in_words};
ghost use Rattle.files.specs.Clauses.{WithinLimits};
ghost use Rattle.marking.specs.Clauses.{WholeRow, TwoRows, CountsOf, TwoCounted, EmptyColumn, ColumnFilled, EmptyTable};
ghost use Rattle.marking.specs.Dense.{other_than, missing, conditions_in, could_cover_at};
ghost use Rattle.marking.specs.Levels.{level_number};

use crate::cells;
use crate::levels::Level;
use bits::sets;
use files::arrays::Arrays;
use files::limits;

// How many conditions of the row at `base` do not stand in the row at `other`.
fn missing(conditions: &[u8; 32768], base: usize, other: usize, variables: usize) -> u8
    requires { TwoRows base other variables }
    ensures { result ≡ missing conditions.now base other variables }
{
    cells::count_where(variables, |v| {
        cells::other_than(conditions[base + v], conditions[other + v])
    })
}

// How many conditions the row at `base` has.
fn conditions_in(task: &Arrays, base: usize) -> u8
    requires { WholeRow 32768 base task.now.variables }
    ensures { result ≡ conditions_in task.now.conditions base task.now.variables }
{
    let conditions = &task.conditions;
    cells::count_where(task.variables, |v| cells::is_there(conditions[base + v]))
}

// How many conditions each action has.
fn condition_counts(task: &Arrays) -> [u8; 512]
    requires { WithinLimits task.now.variables task.now.actions }
    ensures { CountsOf task.now.conditions task.now.variables task.now.actions result }
{
    let mut counts = [0; 512];
    for a in 0..task.actions {
        counts[a] = conditions_in(task, limits::ROW * a);
    }
    counts
}

// Where a row is compared first: at its last condition, or at 0. Any variable would do.
fn first_compared(task: &Arrays, base: usize) -> usize
    requires { WholeRow 32768 base task.now.variables }
{
    for v in (0..task.variables).rev() {
        if cells::is_there(task.conditions[base + v]) {
            return v;
        }
    }
    0
}

// Whether the row at `base` has a condition on v that does not stand in the row at `other`.
fn is_missing(
    conditions: &[u8; 32768],
    base: usize,
    other: usize,
    variables: usize,
    v: usize,
) -> bool
    requires { TwoRows base other variables }
    ensures { result ≡ (ltb v variables && other_than (get_or conditions.now (base + v) 0) (get_or conditions.now (other + v) 0)) }
{
    if variables <= v {
        return false;
    }
    cells::other_than(conditions[base + v], conditions[other + v])
}

// Whether b costs the same as a or less and has a proper subset of its conditions: all of its conditions
// are among them, and there are more of them. Three quick tests tell most pairs apart, the first on one
// variable alone, and are taken together without a branch.
// Kept: arrays apart in place of `&Arrays`, of which each pair would read the number of variables anew:
// this is done for each two actions (see `any_of` for the times).
fn pair_could_cover(
    costs: &[u32; 512],
    conditions: &[u8; 32768],
    counts: &[u8; 512],
    variables: usize,
    first: usize,
    b: usize,
    a: usize,
) -> bool
    requires { TwoCounted conditions.now counts.now variables b a }
    ensures { result ≡ could_cover_at costs.now conditions.now variables b a }
{
    let base = limits::ROW * b;
    let other = limits::ROW * a;
    let lacks = is_missing(conditions, base, other, variables, first);
    let not_more = counts[a] <= counts[b];
    let dearer = costs[a] < costs[b];
    if cells::any_of(lacks, not_more, dearer) {
        return false;
    }
    missing(conditions, base, other, variables) == 0
}

// The column of one action in the table, where it is empty: what it could cover.
fn fill_column(could_cover: &mut [u64; 4096], task: &Arrays, counts: &[u8; 512], b: usize)
    requires { EmptyColumn task.now.conditions counts.now task.now.variables task.now.actions b could_cover.old }
    ensures { ColumnFilled task.now.costs task.now.conditions task.now.variables task.now.actions b could_cover.old could_cover.new }
{
    let variables = task.variables;
    let costs = &task.costs;
    let conditions = &task.conditions;
    let first = first_compared(task, limits::ROW * b);
    for a in 0..task.actions {
        if pair_could_cover(costs, conditions, counts, variables, first, b, a) {
            sets::add(could_cover, 8 * a, b);
        }
    }
}

// The table of what could cover what, for level 4 alone.
pub fn fill(could_cover: &mut [u64; 4096], task: &Arrays, level: Level)
    requires { EmptyTable task.now.variables task.now.actions could_cover.old }
    ensures { level_number level ≡ 4 → (a b : ℕ) → a < task.now.actions → b < task.now.actions → in_words could_cover.new (8 * a) b ≡ could_cover_at task.now.costs task.now.conditions task.now.variables b a }
{
    if !level.has_covering() {
        return;
    }
    let counts = condition_counts(task);
    for b in 0..task.actions {
        fill_column(could_cover, task, &counts, b);
    }
}
