// States of the task that arrays hold, numbered in mixed radix.
ghost use Rattle.std.specs.Prelude.{◌≡◌, List, ℕ, ◌/◌, ◌%◌, ◌≤◌, ◌<◌, get_or};
ghost use Rattle.plans.specs.Tally.{list_state};
ghost use Rattle.distances.specs.States.{state_number, state_at};
ghost use Rattle.distances.specs.Rows.{row_variables, Sized, FewStates, Counted, ValuesInside};
ghost use Rattle.lookup.specs.Moves.{row_weight};

// The most states that are searched.
pub const MOST_STATES: usize = 4096;

// The count of states, or a number above 4,096 where they are more than that.
pub fn count(sizes: &[u8; 64], variables: usize) -> usize
    requires { Sized variables sizes.now }
    ensures { Counted variables sizes.now result }
{
    let mut states: usize = 1;
    for v in 0..variables {
        states = states * sizes[v] as usize;
        if MOST_STATES < states {
            return states;
        }
    }
    states
}

// The number of the start state.
pub fn start_number(sizes: &[u8; 64], starts: &[u8; 64], variables: usize) -> usize
    requires { ValuesInside variables sizes.now starts.now }
    ensures { result ≡ state_number (row_variables variables sizes.now starts.now) (list_state starts.now) }
{
    let mut number: usize = 0;
    for v in (0..variables).rev() {
        number = starts[v] as usize + sizes[v] as usize * number;
    }
    number
}

// The value of a variable of so many values in a state of which the variables before are divided out, and
// the state without that variable. Most have two values, for which no division is made.
fn divided(rest: usize, size: usize) -> (usize, usize)
    requires { 1 ≤ size }
    ensures value { result.0 ≡ rest % size }
    ensures others { result.1 ≡ rest / size }
{
    if size == 2 {
        (rest % 2, rest / 2)
    } else {
        (rest % size, rest / size)
    }
}

// The values of the variables in a state; 0 past the last variable.
pub fn values_of(sizes: &[u8; 64], variables: usize, state: usize) -> [u8; 64]
    requires { Sized variables sizes.now }
    ensures { (starts : List ℕ) → list_state result ≡ state_at (row_variables variables sizes.now starts) state }
{
    let mut values = [0u8; 64];
    let mut rest = state;
    for v in 0..variables {
        let (value, others) = divided(rest, sizes[v] as usize);
        values[v] = value as u8;
        rest = others;
    }
    values
}

// What a change of one in the value of each variable adds to the number of a state.
pub fn weights(sizes: &[u8; 64], variables: usize) -> [usize; 64]
    requires { FewStates variables sizes.now }
    ensures { (v : ℕ) → v < variables → get_or result v 0 ≡ row_weight sizes.now v }
{
    let mut weights = [0usize; 64];
    let mut weight: usize = 1;
    for v in 0..variables {
        weights[v] = weight;
        weight = weight * sizes[v] as usize;
    }
    weights
}
