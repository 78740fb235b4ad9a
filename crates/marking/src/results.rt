// The number of marks, and the marks as they are handed back.
ghost use Rattle.std.specs.Prelude.{◌≡◌, ◌+◌, ◌*◌, ◌≤◌, get_or};
ghost use Rattle.files.specs.Below.{tabulate, join_below, sum_of};
ghost use Rattle.files.specs.Bytes.{placed};
ghost use Rattle.files.specs.Clauses.{IsAtMost, Writable};
ghost use Rattle.marking.specs.Clauses.{Summable, ValuesWithin, SizesWithin};
ghost use Rattle.marking.specs.Dense.{fact_byte, fact_bytes};

use crate::marks;
use files::arrays::Arrays;
use files::limits;

// The sum of the first `count` bytes.
pub fn sum(bytes: &[u8], count: usize) -> usize
    requires { Summable bytes.now count }
    ensures { IsAtMost result (sum_of bytes.now count) (255 * count) }
{
    let mut total = 0;
    for i in 0..count {
        total += bytes[i] as usize;
    }
    total
}

// A byte per action.
pub fn write_actions(marks: &mut [u8], kept: &[u8; 512], actions: usize)
    requires { Writable (actions ≤ 512) actions marks.old }
    ensures { marks.new ≡ placed marks.old 0 (tabulate actions (λ a. get_or kept.now a 0)) }
{
    for a in 0..actions {
        marks[a] = kept[a];
    }
}

// The mark of a fact.
fn fact_mark(fact: u8, unlinked: u8) -> u8
    ensures { result ≡ fact_byte fact unlinked }
{
    match (fact, unlinked) {
        (1, 1) => marks::RELEVANT,
        (1, _) => marks::LINKED,
        _ => 0,
    }
}

// The bytes of a variable's values, from `at` on.
fn write_values(
    marks: &mut [u8],
    at: usize,
    facts: &[u8; 2048],
    unlinked: &[u8; 2048],
    v: usize,
    size: usize,
)
    requires { Writable (ValuesWithin v size) (at + size) marks.old }
    ensures { marks.new ≡ placed marks.old at (fact_bytes facts.now unlinked.now v size) }
{
    for d in 0..size {
        marks[at + d] = fact_mark(
            facts[limits::MOST_VALUES * v + d],
            unlinked[limits::MOST_VALUES * v + d],
        );
    }
}

// A byte per fact, by variable, then value.
pub fn write_facts(marks: &mut [u8], facts: &[u8; 2048], unlinked: &[u8; 2048], task: &Arrays)
    requires { Writable (SizesWithin task.now.sizes task.now.variables) (sum_of task.now.sizes task.now.variables) marks.old }
    ensures { marks.new ≡ placed marks.old 0 (join_below task.now.variables (λ v. fact_bytes facts.now unlinked.now v (get_or task.now.sizes v 0))) }
{
    let mut at = 0;
    for v in 0..task.variables {
        let size = task.sizes[v] as usize;
        write_values(marks, at, facts, unlinked, v, size);
        at += size;
    }
}
