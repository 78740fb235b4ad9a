// The planner with a table of its own, for callers that do not look at the table.
ghost use Rattle.reduction.specs.Reduce.{buffers};
ghost use Rattle.search.specs.Found.{PlansAlone};
ghost use Rattle.search.specs.Planner.{planned_of};

use crate::Counts;
use distances::Entry;
use files::refusals::Refusal;

// Plans as the planner does, with a table that is long enough for every task.
pub fn plan(
    task: &[u8],
    level: u32,
    signer: u32,
    actions: &mut [u8],
    facts: &mut [u8],
    reduced: &mut [u8],
    origin: &mut [u8],
    plan: &mut [u8],
) -> Result<Counts, Refusal>
    ensures { PlansAlone task.now level signer (buffers actions.old facts.old reduced.old origin.old) plan.old (planned_of result) (buffers actions.new facts.new reduced.new origin.new) plan.new }
{
    let none = Entry::none();
    let mut table = [none; 4096];
    crate::plan(
        task, level, signer, actions, facts, reduced, origin, &mut table, plan,
    )
}
