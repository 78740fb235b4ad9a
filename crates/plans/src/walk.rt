// The plan checker's walk over the steps of a plan file.
ghost use Rattle.std.specs.Prelude.{◌≡◌};
ghost use Rattle.files.specs.Clauses.{ActionWithin};
ghost use Rattle.files.specs.Dense.{held, row_action, row_pairs};
ghost use Rattle.files.specs.PlanFile.{plan_of};
ghost use Rattle.plans.specs.Check.{checked_of, walk_answer};
ghost use Rattle.plans.specs.Clauses.{RowIs, StepsWithin};
ghost use Rattle.plans.specs.Tally.{end_answer};

use crate::tally::{Row, Tally};
use crate::{Minutes, OriginalAction, PlanTotal, rows};
use files::arrays::Arrays;
use files::limits;
use files::refusals::{Reason, Refusal};

// The row of an action.
fn action_at(task: &Arrays, action: OriginalAction) -> Row
    requires { ActionWithin action.0 task.now.variables }
    ensures { RowIs result (row_action task.now.variables task.now.costs task.now.conditions task.now.effects action.0) }
{
    let a = action.0 as usize;
    let base = limits::ROW * a;
    Row {
        cost: Minutes::from(task.costs[a]),
        conditions: rows::row_at(&task.conditions, base, task.variables),
        effects: rows::row_at(&task.effects, base, task.variables),
    }
}

// The answer after the last step: the goal is tested.
fn ended(tally: Tally, goal: [u8; 64]) -> Result<PlanTotal, Refusal>
    ensures { checked_of result ≡ end_answer tally (row_pairs goal 0 0 64) }
{
    let state = tally.state;
    if !rows::all_hold(goal, state) {
        return Err(Refusal::at(Reason::GoalMissed, tally.steps.0 as usize));
    }
    Ok(PlanTotal {
        cost: tally.minutes,
        steps: tally.steps,
    })
}

// The steps in turn from the start, then the goal. The domain sizes of the variables are not asked.
pub fn take_steps(plan: &[u8], task: &Arrays) -> Result<PlanTotal, Refusal>
    requires { StepsWithin task.now.variables task.now.actions (plan_of plan.now) }
    ensures { checked_of result ≡ walk_answer (held task.now) (plan_of plan.now) }
{
    let count = files::plan::steps(plan).0 as usize;
    let goal = rows::row_at(&task.goal, 0, task.variables);
    let mut tally = Tally::start(rows::state_of(&task.starts, task.variables));
    for i in 0..count {
        let action = action_at(task, files::plan::step(plan, i));
        if !tally.meets(action) {
            return Err(Refusal::at(Reason::NotApplicable, i));
        }
        tally = tally.step(action);
    }
    ended(tally, goal)
}
