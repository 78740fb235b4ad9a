// The stages of reduction, on the arrays of a task.
ghost use Rattle.std.specs.Prelude.{◌≡◌, true};
ghost use Rattle.files.specs.Accepted.{accepted_task};
ghost use Rattle.files.specs.Dense.{held};
ghost use Rattle.files.specs.Outcome.{done};
ghost use Rattle.reduction.specs.Clauses.{ReducedOnce};
ghost use Rattle.reduction.specs.Reduce.{buffers, reduced_of, ReducesTask};

use crate::{Counts, arrays, named, turns};
use files::arrays::{Arrays, OriginArrays};
use files::refusals::Refusal;

// Marks and reduces the task that arrays hold, each stage where its buffers are long enough.
pub fn reduce_once(
    task: &Arrays,
    level: u32,
    signer: u32,
    actions: &mut [u8],
    facts: &mut [u8],
    reduced: &mut [u8],
    origin: &mut [u8],
) -> Result<Counts, Refusal>
    requires { ReducedOnce (held task.now) level }
    ensures { ReducesTask done (held task.now) level signer (buffers actions.old facts.old reduced.old origin.old) (reduced_of result) (buffers actions.new facts.new reduced.new origin.new) }
{
    let marked = marking::rounds::mark_task(task, level, actions, facts)?;
    let kept = named::kept_actions(actions, task.actions);
    let lengths = arrays::write_reduced(task, &kept, signer, reduced, origin)?;
    Ok(Counts {
        action_marks: marked.action_marks,
        fact_marks: marked.fact_marks,
        reduced: lengths.reduced,
        origin: lengths.origin,
        rounds: marked.rounds,
        turns: 0,
    })
}

// Marks the task that arrays hold at level 4 and takes turns on it, each stage where its buffers are
// long enough. The arrays then hold the task that the turns leave.
pub fn reduce_in_turns(
    task: &mut Arrays,
    signer: u32,
    actions: &mut [u8],
    facts: &mut [u8],
    reduced: &mut [u8],
    origin: &mut [u8],
) -> Result<Counts, Refusal>
    requires { accepted_task (held task.old) ≡ true }
    ensures { ReducesTask done (held task.old) 5 signer (buffers actions.old facts.old reduced.old origin.old) (reduced_of result) (buffers actions.new facts.new reduced.new origin.new) }
{
    let marked = marking::rounds::mark_task(task, turns::LEVEL, actions, facts)?;
    let kept = named::kept_actions(actions, task.actions);
    let mut origins = OriginArrays::empty();
    let turns = turns::run(task, &mut origins, &kept);
    let lengths = arrays::write(task, &origins, signer, reduced, origin)?;
    Ok(Counts {
        action_marks: marked.action_marks,
        fact_marks: marked.fact_marks,
        reduced: lengths.reduced,
        origin: lengths.origin,
        rounds: marked.rounds,
        turns,
    })
}
