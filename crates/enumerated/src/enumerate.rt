// The enumerator. For each number of steps and each state it has the least cost of reaching the goal in
// exactly so many steps. A cheapest plan of fewest steps visits no state twice, and no task here has
// more than 64 states, so that up to 63 steps are enough.
use crate::state::{State, states_of};
use crate::task::{Action, Task};

// Plans of up to so many steps are looked at.
const STEPS: usize = 63;

// The numbers of steps, with none.
const TABLES: usize = STEPS + 1;

// No task here has more actions.
const ACTIONS: usize = 10;

// No number of a state is so great.
const STATES: usize = 256;

// The actions of a plan, by their numbers.
#[derive(Clone, Copy)]
pub struct Plan {
    actions: [u16; STEPS],
    steps: usize,
}

impl Plan {
    pub fn as_slice(&self) -> &[u16] {
        self.actions.split_at(self.steps.min(STEPS)).0
    }

    // Adds an action, if there is room.
    fn push(&mut self, action: u16) -> Option<()> {
        *self.actions.get_mut(self.steps)? = action;
        self.steps += 1;
        Some(())
    }
}

// A cheapest plan of fewest steps: at each step the first action that leaves the least cost in the steps
// that are left.
#[derive(Clone, Copy)]
pub struct Best {
    pub cost: u32,
    pub plan: Plan,
    // Whether a later action would have done as well at some step.
    pub is_tied: bool,
}

// An action to go on with, the state after it, the cost by it, and whether a later one does as well.
#[derive(Clone, Copy)]
struct Choice {
    action: u16,
    after: usize,
    cost: u32,
    is_tied: bool,
}

// The least costs of reaching the goal from each state in some number of steps.
type Costs = [Option<u32>; STATES];

// An action by numbers of states: the state after it, where it is applicable.
#[derive(Clone, Copy)]
struct Moves {
    cost: u32,
    next: [Option<u8>; STATES],
}

impl Moves {
    fn of(action: &Action, states: usize) -> Moves {
        let mut next = [None; STATES];
        for (number, next) in (0..states).zip(next.iter_mut()) {
            let state = State::of(number);
            let after = state.after(action.effects.as_slice()).number();
            let is_applicable = state.holds(action.conditions.as_slice());
            *next = is_applicable.then_some(after);
        }
        let cost = action.cost;
        Moves { cost, next }
    }

    // The state after the action, and the least cost by it and then by those costs.
    fn go_on(&self, rest: &Costs, state: usize) -> Option<(usize, u32)> {
        let after = usize::from(self.next.get(state).copied().flatten()?);
        let left = rest.get(after).copied().flatten()?;
        Some((after, self.cost.checked_add(left)?))
    }
}

// The first action by which a state has its least cost in one step more than those of `rest`.
fn choose(moves: &[Moves], rest: &Costs, state: usize) -> Option<Choice> {
    let mut best: Option<Choice> = None;
    for (action, each) in (0..ACTIONS as u16).zip(moves.iter()) {
        let Some((after, cost)) = each.go_on(rest, state) else {
            continue;
        };
        match &mut best {
            Some(choice) if choice.cost < cost => {}
            Some(choice) if choice.cost == cost => choice.is_tied = true,
            _ => {
                best = Some(Choice {
                    action,
                    after,
                    cost,
                    is_tied: false,
                });
            }
        }
    }
    best
}

// What there is to find in a task: a best plan, or none.
pub fn find(task: &Task) -> Option<Best> {
    let states = states_of(task);
    let actions = task.actions.as_slice();
    let no_moves = Moves {
        cost: 0,
        next: [None; STATES],
    };
    let mut moves = [no_moves; ACTIONS];
    for (moves, action) in moves.iter_mut().zip(actions.iter()) {
        *moves = Moves::of(action, states);
    }
    let moves = moves.split_at(actions.len().min(ACTIONS)).0;
    let mut tables = [[None; STATES]; TABLES];
    fill_tables(&mut tables, task, moves, states);
    let mut state = usize::from(State::start_of(task).number());
    let (steps, cost) = fewest(&tables, state)?;
    let mut best = Best {
        cost,
        plan: Plan {
            actions: [0; STEPS],
            steps: 0,
        },
        is_tied: false,
    };
    for rest in tables.iter().take(steps).rev() {
        let Some(choice) = choose(moves, rest, state) else {
            break;
        };
        best.plan.push(choice.action)?;
        best.is_tied = best.is_tied || choice.is_tied;
        state = choice.after;
    }
    Some(best)
}

// Fills in the least costs by the number of steps, first those of the goal in none.
fn fill_tables(tables: &mut [Costs; TABLES], task: &Task, moves: &[Moves], states: usize) {
    let mut rest = [None; STATES];
    for (number, cost) in (0..states).zip(rest.iter_mut()) {
        let is_goal = State::of(number).holds(task.goal.as_slice());
        *cost = is_goal.then_some(0);
    }
    tables[0] = rest;
    for costs in tables.iter_mut().skip(1) {
        fill_costs(costs, moves, &rest, states);
        rest = *costs;
    }
}

// Fills in the least costs of one step more than those of `rest`.
fn fill_costs(costs: &mut Costs, moves: &[Moves], rest: &Costs, states: usize) {
    for (state, cost) in (0..states).zip(costs.iter_mut()) {
        *cost = choose(moves, rest, state).map(|choice| choice.cost);
    }
}

// The fewest steps in which a state has its least cost, and that cost.
fn fewest(tables: &[Costs; TABLES], state: usize) -> Option<(usize, u32)> {
    let mut best: Option<(usize, u32)> = None;
    for (steps, costs) in tables.iter().enumerate() {
        let Some(cost) = costs.get(state).copied().flatten() else {
            continue;
        };
        if best.is_none_or(|(_, least)| cost < least) {
            best = Some((steps, cost));
        }
    }
    best
}
