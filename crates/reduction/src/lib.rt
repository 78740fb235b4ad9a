// Reduction: the reduced task and its origins, and the condition pairs of an action.
// The calls open to callers are reduce and conditions.
#![tactic(auto)]

mod arrays;
mod chosen;
mod level;
mod named;
mod origins;
mod reach;
mod renumber;
mod rows;
mod stages;
mod stretch;
mod turns;

ghost use Rattle.std.specs.Prelude.{◌≡◌};
ghost use Rattle.reduction.specs.Reduce.{buffers, reduced_of, Reduces};
ghost use Rattle.files.specs.Outcome.{outcome_of};
ghost use Rattle.reduction.specs.Stretch.{part_of, Stretches};

use files::arrays::Arrays;
use files::refusals::{Reason, Refusal};
use level::Level;
use plans::{OriginalAction, ReducedAction};

// How many action marks and fact marks were written, how long both files are, and how many rounds and
// turns there were.
#[derive(Clone, Copy, Debug, Default, PartialEq, Eq)]
pub struct Counts {
    pub action_marks: usize,
    pub fact_marks: usize,
    pub reduced: usize,
    pub origin: usize,
    pub rounds: usize,
    pub turns: usize,
}

// Marks the task of a task file at a level, and writes the files of its reduced task and of its
// origins under a signer.
pub fn reduce(
    task: &[u8],
    level: u32,
    signer: u32,
    actions: &mut [u8],
    facts: &mut [u8],
    reduced: &mut [u8],
    origin: &mut [u8],
) -> Result<Counts, Refusal>
    ensures { Reduces task.now level signer (buffers actions.old facts.old reduced.old origin.old) (reduced_of result) (buffers actions.new facts.new reduced.new origin.new) }
{
    let mut arrays = Arrays::empty();
    arrays.read(task)?;
    let level = Level::try_from(level)?;
    if signer < 1 {
        return Err(Refusal::at(Reason::WrongSignOff, 0));
    }
    match level {
        Level::Once(level) => {
            let level = level.number();
            stages::reduce_once(&arrays, level, signer, actions, facts, reduced, origin)
        }
        Level::InTurns => {
            stages::reduce_in_turns(&mut arrays, signer, actions, facts, reduced, origin)
        }
    }
}

// The condition pairs of an action, as they stand in the file of a side: 0 the first, any other
// number the second.
pub fn conditions<'a>(
    full: &'a [u8],
    reduced: &'a [u8],
    side: u32,
    action: usize,
) -> Result<&'a [u8], Refusal>
    ensures { Stretches full.now reduced.now side action (part_of result) (outcome_of result) }
{
    stretch::check(full, reduced, side, action)?;
    if side == 0 {
        return Ok(stretch::original_pairs(full, OriginalAction(action as u16)));
    }
    Ok(stretch::reduced_pairs(reduced, ReducedAction(action as u16)))
}
