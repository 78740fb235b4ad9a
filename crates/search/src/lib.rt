// Search over the states of the reduced task, and the planner.
// The call open to callers is plan; the module own_table serves the programs.
#![tactic(auto)]

mod first_plan;
mod levels;
pub mod own_table;
mod stages;
mod work_table;

ghost use Rattle.std.specs.Prelude.{◌≡◌};
ghost use Rattle.search.specs.Planner.{lent_of, planned_of};
ghost use Rattle.search.specs.PlannerRight.{PlansRight};

use files::refusals::Refusal;

// What the planner answers: the six lengths written, the round count, the turn count, cost and steps.
#[derive(Clone, Copy, Debug, PartialEq, Eq)]
pub struct Counts {
    pub action_marks: usize,
    pub fact_marks: usize,
    pub reduced: usize,
    pub origin: usize,
    pub table: usize,
    pub plan: usize,
    pub rounds: usize,
    pub turns: usize,
    pub cost: plans::Minutes,
    pub steps: plans::Steps,
}

// Plans the task of a task file: marks and reduces it at a level, searches its states, and writes
// the first of its cheapest plans of fewest steps by original numbers, under a signer.
pub fn plan(
    task: &[u8],
    level: u32,
    signer: u32,
    actions: &mut [u8],
    facts: &mut [u8],
    reduced: &mut [u8],
    origin: &mut [u8],
    table: &mut [distances::Entry],
    plan: &mut [u8],
) -> Result<Counts, Refusal>
    ensures { PlansRight task.now level signer (lent_of actions.old facts.old reduced.old origin.old table.old plan.old) (planned_of result) (lent_of actions.new facts.new reduced.new origin.new table.new plan.new) }
{
    let first = levels::reduce_taken(task, level, signer, actions, facts, reduced, origin)?;
    let found = work_table::search(&first, signer, reduced, origin, table, plan)?;
    Ok(Counts {
        action_marks: first.action_marks,
        fact_marks: first.fact_marks,
        reduced: first.reduced,
        origin: first.origin,
        table: found.states,
        plan: found.plan,
        rounds: first.rounds,
        turns: first.turns,
        cost: found.cost,
        steps: found.steps,
    })
}
