// The tally of a plan.
ghost use Rattle.std.specs.Prelude.{◌≡◌};
ghost use Rattle.plans.specs.Clauses.{TallyIs, StepFits};
ghost use Rattle.plans.specs.Plan.{add_step, no_steps};
ghost use Rattle.plans.specs.State.{applicable, apply};
ghost use Rattle.plans.specs.Tally.{list_state, row_of, state_of, total_in};

use crate::{Minutes, Steps, rows};

// An action: its cost and, for each variable, the value that it asks and the value that it sets,
// 255 where there is none.
#[derive(Clone, Copy)]
pub struct Row {
    pub cost: Minutes,
    pub conditions: [u8; 64],
    pub effects: [u8; 64],
}

// The state that a plan has reached, and the minutes and steps that it took.
// Kept: by value and handed back, a rule of the project ("is taken on by one step and handed back").
#[derive(Clone, Copy)]
pub struct Tally {
    pub state: [u8; 64],
    pub minutes: Minutes,
    pub steps: Steps,
}

impl Tally {
    // The tally before the first step.
    pub fn start(state: [u8; 64]) -> Tally
        ensures { TallyIs result (list_state state) no_steps }
    {
        Tally {
            state,
            minutes: Minutes(0),
            steps: Steps(0),
        }
    }

    // Whether an action is applicable.
    pub fn meets(self, action: Row) -> bool
        ensures { result ≡ applicable (row_of action) (state_of self) }
    {
        rows::all_hold(action.conditions, self.state)
    }

    // The tally after a step.
    pub fn step(self, action: Row) -> Tally
        requires { StepFits self action }
        ensures { TallyIs result (apply (row_of action) (state_of self)) (add_step (row_of action) (total_in self)) }
    {
        Tally {
            state: rows::applied(action.effects, self.state),
            minutes: Minutes(self.minutes.0 + action.cost.0),
            steps: Steps(self.steps.0 + 1),
        }
    }
}
