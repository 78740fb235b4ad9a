// Plans: states, applicability, the tally of a plan and the plan checker.
// The call open to callers is check_plan; the module rows serves the layers above.
#![tactic(auto)]

pub mod rows;
mod tally;
mod walk;

ghost use Rattle.std.specs.Prelude.{◌≡◌};
ghost use Rattle.plans.specs.Check.{check_plan, checked_of};

use files::arrays::Arrays;
use files::refusals::Refusal;
pub use files::units::{Minutes, OriginalAction, ReducedAction, Steps};

// The cost and the steps of a plan.
#[derive(Clone, Copy)]
pub struct PlanTotal {
    pub cost: Minutes,
    pub steps: Steps,
}

// Whether a plan file holds a plan of a task file's task, and its cost and steps.
#[tactic(auto, using(crate::proofs::CheckLaws::second_refused))]
pub fn check_plan(task: &[u8], plan: &[u8]) -> Result<PlanTotal, Refusal>
    ensures { checked_of result ≡ check_plan task.now plan.now }
{
    let mut arrays = Arrays::empty();
    arrays.read(task)?;
    files::plan::check(plan, arrays.actions).map_err(|refusal| refusal.of_second())?;
    walk::take_steps(plan, &arrays)
}
