// The parts of reading a plan off a table that do not look at the table: where an action leads from
// a state, whether the state has its entry by way of it, and the steps of the plan file.
ghost use Rattle.std.specs.Prelude.{◌≡◌, ◌+◌, ◌≤◌};
ghost use Rattle.search.specs.ReadOff.{searched_of, CanKnow, HereOf, freed_by, goes_by, CanGo, CanStepFrom, StepFrom, CanCompare, HasBy, LooksOn, CanPut, StepPut};

use crate::stages::Search;
use bits::sets;
use distances::{Entry, states};
use lookup::moves::Moves;
use plans::{Minutes, ReducedAction};

// An action, and the state that it leads to. Where the action is not applicable or too dear that is
// the state itself, whose entry with a step more is never its own.
#[derive(Clone, Copy, Debug, PartialEq, Eq)]
pub struct Step {
    pub action: ReducedAction,
    pub next: usize,
}

// What reading off needs of a state: its applicable actions that are cheap enough as the bits of
// eight words, and what the value of each variable adds to its number.
#[derive(Clone, Copy)]
pub struct Here {
    pub actions: [u64; 8],
    pub added: [usize; 64],
}

impl Here {
    // What the values of the variables in a word add to the number of the state. `rest & (rest - 1)` is
    // the rest without its first variable.
    fn freed(&self, word: u64) -> usize
        requires { freed_by self.now word 64 ≤ 1000000 }
        ensures { result ≡ freed_by self.now word 64 }
    {
        let mut sum: usize = 0;
        let mut rest = word;
        // Kept: no index is counted here; each turn takes a variable off the word.
        while 0 < rest {
            sum = sum + self.added[u64::trailing_zeros(rest) as usize];
            rest = rest & (rest - 1);
        }
        sum
    }

    // The state that action `a` leads to, or the state itself where it is not among those of the state.
    fn next_state(&self, moves: &Moves, state: usize, a: usize) -> usize
        requires { CanGo self.now moves.now.actions state a }
        ensures { result ≡ goes_by self.now moves.now.actions state a }
    {
        if sets::has(&self.actions, 0, a) {
            let by = moves.actions[a];
            return state + by.set - by.asked - self.freed(by.free);
        }
        state
    }
}

// Whether a state has its entry by way of an action that leads to a state with entry `next`.
fn has_by(action: ReducedAction, next: Entry, costs: &[u32; 512], own: Entry) -> bool
    requires { CanCompare action.0 next costs.now }
    ensures { HasBy action.0 next costs.now own result }
{
    if next.is_none() {
        return false;
    }
    let a = action.0 as usize;
    next.after_step(Minutes(costs[a] as u64)).is_same(own)
}

impl Search {
    // What reading off needs of a state.
    pub fn here(&self, state: usize) -> Here
        requires { CanKnow self.now.task.variables self.now.task.sizes self.now.rows.words }
        ensures { HereOf self.now.task.variables self.now.task.sizes self.now.rows.words state result }
    {
        let values = states::values_of(&self.task.sizes, self.task.variables, state);
        let actions = self.rows.cheap_in_all(&self.task, &values);
        let mut added = [0usize; 64];
        let mut weight: usize = 1;
        for v in 0..self.task.variables {
            added[v] = weight * values[v] as usize;
            weight = weight * self.task.sizes[v] as usize;
        }
        Here { actions, added }
    }

    // The step by the first action of the state from `from` on, or by the last action of all.
    pub fn step_from(&self, from: usize, state: usize, here: &Here) -> Step
        requires { CanStepFrom (searched_of self.now) from state here.now self.now.moves.actions }
        ensures { StepFrom (searched_of self.now) from state here.now self.now.moves.actions result }
    {
        let a = sets::next_in(&here.actions, 0, from, self.task.actions - 1);
        Step {
            action: ReducedAction(a as u16),
            next: here.next_state(&self.moves, state, a),
        }
    }

    // The step by the first action of the state behind that of another step.
    pub fn step_after(&self, step: Step, state: usize, here: &Here) -> Step
        requires { CanStepFrom (searched_of self.now) (step.action.0 + 1) state here.now self.now.moves.actions }
        ensures { StepFrom (searched_of self.now) (step.action.0 + 1) state here.now self.now.moves.actions result }
    {
        let action = step.action;
        self.step_from(action.0 as usize + 1, state, here)
    }

    // Whether a later action is to be looked at: where there is one, and the state has not its entry
    // by way of this one.
    pub fn looks_on(&self, step: Step, next: Entry, own: Entry) -> bool
        requires { CanCompare step.action.0 next self.now.task.costs }
        ensures { LooksOn (searched_of self.now) step next self.now.task.costs own result }
    {
        let action = step.action;
        if self.task.actions <= action.0 as usize + 1 {
            return false;
        }
        !has_by(action, next, &self.task.costs, own)
    }

    // Writes a step as step `i` of a plan file, by its original number, and gives the state that it
    // leads to.
    pub fn put_step(&self, plan: &mut [u8], i: usize, step: Step, origin: &[u8]) -> usize
        requires { CanPut plan.old i step.action.0 (searched_of self.now) origin.now }
        ensures { StepPut plan.old i step (searched_of self.now) origin.now result plan.new }
    {
        let action = step.action;
        let number = files::origin::original(&origin[..self.named], self.place, action);
        files::plan::put_step(plan, i, number);
        step.next
    }
}
