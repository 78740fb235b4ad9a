// States of a task of at most 4 variables, of at most 4 values each.
use crate::task::{Fact, Task};

// The value of each variable; they are the digits of the state's number to base 4, the first the lowest.
#[derive(Clone, Copy, Debug, PartialEq, Eq)]
pub struct State([u8; 4]);

impl State {
    // The start state.
    pub fn start_of(task: &Task) -> State {
        let mut state = State([0; 4]);
        for (value, variable) in state.0.iter_mut().zip(task.variables.as_slice().iter()) {
            *value = (variable.start % 4) as u8;
        }
        state
    }

    pub fn of(number: usize) -> State {
        let mut values = [0; 4];
        let mut left = number;
        for value in &mut values {
            *value = (left % 4) as u8;
            left /= 4;
        }
        State(values)
    }

    pub fn number(self) -> u8 {
        let [first, second, third, fourth] = self.0;
        first % 4 + 4 * (second % 4) + 16 * (third % 4) + 64 * (fourth % 4)
    }

    // Whether all facts hold.
    pub fn holds(self, facts: &[Fact]) -> bool {
        facts.iter().all(|fact| {
            let value = self.0.get(usize::from(fact.variable));
            value.is_some_and(|value| u16::from(*value) == fact.value)
        })
    }

    // The state after all facts are set.
    pub fn after(self, facts: &[Fact]) -> State {
        let mut next = self;
        for fact in facts {
            if let Some(value) = next.0.get_mut(usize::from(fact.variable)) {
                *value = (fact.value % 4) as u8;
            }
        }
        next
    }
}

// How many numbers of states there are.
pub fn states_of(task: &Task) -> usize {
    match task.variables.as_slice().len() {
        0 => 1,
        1 => 4,
        2 => 16,
        3 => 64,
        _ => 256,
    }
}
