// Relevance marking at levels 1 to 4.
// The call open to callers is mark; the public modules serve the layers above.
#![tactic(auto)]

mod cells;
mod cover_table;
mod covering;
pub mod gains;
pub mod levels;
pub mod links;
pub mod marks;
mod results;
pub mod rounds;

ghost use Rattle.marking.specs.Mark.{MarksFile, mark_buffers, marked_of};

use files::arrays::Arrays;
use files::refusals::Refusal;
use levels::Level;

// How many marks of actions and of facts were written, and how many rounds there were.
#[derive(Clone, Copy, Debug, Default, PartialEq, Eq)]
pub struct Counts {
    pub action_marks: usize,
    pub fact_marks: usize,
    pub rounds: usize,
}

// Marks the kept actions and the relevant facts of a task file's task at a level, a byte each.
pub fn mark(
    task: &[u8],
    level: u32,
    actions: &mut [u8],
    facts: &mut [u8],
) -> Result<Counts, Refusal>
    ensures { MarksFile task.now level (mark_buffers actions.old facts.old) (marked_of result) (mark_buffers actions.new facts.new) }
{
    let mut arrays = Arrays::empty();
    arrays.read(task)?;
    let level = Level::try_from(level)?;
    rounds::mark_task(&arrays, level.number(), actions, facts)
}
