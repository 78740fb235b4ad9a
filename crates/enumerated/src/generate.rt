// Random tasks: up to 4 variables, 64 states and 10 actions.
//
// A task has four rows of values, each by a seed of its own; the first has the start values. The
// conditions of an action are some pairs of a row, its effects some of the next, so that plans have
// several steps. There are few effects to a row, so that actions are alike and one covers another, at
// the same cost or at a lower one.
use crate::random::Random;
use crate::task::{Action, Fact, Facts, Task, Variable};

// A task by its place in the row of tasks.
pub fn task(place: usize, random: &mut Random) -> Option<Task> {
    let form = Form::of(place);
    let variables = form.variables(random.draw());
    let actions = form.actions(variables, random.draw());
    let seed = random.draw();
    let mut task = Task::default();
    let mut row = row_of(seed, 0);
    for variable in 0..variables {
        let size = form.size(variables, variable, random.draw());
        let start = form.start(&mut row, size);
        task.variables.push(Variable { size, start })?;
    }
    task.goal = form.goal(task.variables.as_slice(), seed, random)?;
    for action in 0..actions {
        let added = form.action(task.variables.as_slice(), action, seed, random)?;
        task.actions.push(added)?;
    }
    Some(task)
}

// What tasks there are, by their places.
#[derive(Clone, Copy, Debug, PartialEq, Eq)]
enum Form {
    // The variables are digits of 4 values, and each of the first actions adds 1: up to the last state
    // there are as many steps as a plan can have.
    Counting,
    // No variables.
    Empty,
    // Many actions.
    Even,
    // Any number of actions.
    Odd,
}

impl Form {
    fn of(place: usize) -> Form {
        if place % 8 == 7 {
            Form::Counting
        } else if place % 100 == 50 {
            Form::Empty
        } else if place % 2 == 0 {
            Form::Even
        } else {
            Form::Odd
        }
    }

    // The number of variables.
    fn variables(self, drawn: u16) -> u16 {
        match self {
            Form::Counting => 1 + drawn % 3,
            Form::Empty => 0,
            Form::Even | Form::Odd => 1 + (1 + drawn % 7) / 2,
        }
    }

    // The number of actions: three for each variable that counts, and one more at times.
    fn actions(self, variables: u16, drawn: u16) -> u16 {
        match self {
            Form::Counting => variables % 4 * 3 + drawn % 2,
            Form::Empty | Form::Even => 10 - drawn % 4,
            Form::Odd => drawn % 11,
        }
    }

    // A domain size. Of four variables two have at most 2 values.
    fn size(self, variables: u16, variable: u16, drawn: u16) -> u16 {
        if self == Form::Counting {
            4
        } else if variables == 4 && variable % 2 == 1 {
            1 + (4 + drawn % 6) / 5
        } else {
            1 + (2 + drawn % 10) / 3
        }
    }

    // A start value: that of a row, or 0 where the task counts.
    fn start(self, row: &mut Random, size: u16) -> u16 {
        if self == Form::Counting {
            return 0;
        }
        let drawn = row.draw();
        let _ = row.draw();
        drawn.checked_rem(size).unwrap_or(0)
    }

    // The goal: the last state where the task counts, else some pairs of a row, seldom of the first.
    fn goal(self, variables: &[Variable], seed: u16, random: &mut Random) -> Option<Facts> {
        if self == Form::Counting {
            let last = (variables.len() % 4 + 3) % 4;
            return digits(last as u16, 3, 3);
        }
        let row = (3 + random.draw() % 13) / 4;
        pairs(variables, row_of(seed, row), 17 - random.draw() % 8)
    }

    // An action, of which the first ones count where the task does.
    fn action(
        self,
        variables: &[Variable],
        action: u16,
        seed: u16,
        random: &mut Random,
    ) -> Option<Action> {
        let variable = action / 3;
        if self == Form::Counting && usize::from(variable) < variables.len() {
            return Some(Action {
                cost: cost(seed, random.draw()),
                conditions: digits(variable, 3, action % 3)?,
                effects: digits(variable, 0, action % 3 + 1)?,
            });
        }
        random_action(variables, seed, random)
    }
}

fn random_action(variables: &[Variable], seed: u16, random: &mut Random) -> Option<Action> {
    let drawn = cost(seed, random.draw());
    let row = random.draw() % 4;
    let density = random.draw() % 12;
    // half as much where there are few conditions: others with more of the same are dearer then
    let cost = if density < 6 { drawn / 2 } else { drawn };
    let many = 6 + random.draw() % 2 * 6;
    Some(Action {
        cost,
        conditions: pairs(variables, row_of(seed, row), density)?,
        effects: pairs(variables, row_of(seed, row + 1), many)?,
    })
}

// A cost: most actions of a task have the same.
fn cost(seed: u16, drawn: u16) -> u32 {
    match (seed % 8 + drawn % 4 / 3) % 8 {
        0 | 6 => 0,
        1 | 5 => 1,
        2 => 2,
        3 => 1000000,
        4 => 999999,
        _ => 65537,
    }
}

// A row of a task.
fn row_of(seed: u16, row: u16) -> Random {
    Random(u64::from(seed) % 32768 + u64::from(row) % 4 * 40503)
}

// Some pairs of a row, with `density` chances in 16; with a lower density some of the same.
fn pairs(variables: &[Variable], mut row: Random, density: u16) -> Option<Facts> {
    let mut pairs = Facts::default();
    for (variable, of) in (0..4).zip(variables.iter()) {
        let Some(value) = row.draw().checked_rem(of.size) else {
            continue;
        };
        if row.draw() % 16 < density {
            pairs.push(Fact { variable, value })?;
        }
    }
    Some(pairs)
}

// The pairs of the variables below a variable, all with one value, and its own.
fn digits(variable: u16, lower: u16, own: u16) -> Option<Facts> {
    let mut digits = Facts::default();
    for below in 0..variable {
        digits.push(Fact {
            variable: below,
            value: lower,
        })?;
    }
    digits.push(Fact {
        variable,
        value: own,
    })?;
    Some(digits)
}
