// The states at which a goal holds.
ghost use Rattle.std.specs.Prelude.{◌≡◌, List, ℕ, ◌≤◌, eqb};
ghost use Rattle.files.specs.Below.{bit};
ghost use Rattle.lookup.specs.Moves.{weighted, WeightsOf};
ghost use Rattle.distances.specs.Offers.{goal_values, GoalFree, SmallWeights};

use files::limits;
use lookup::moves;

const NO_PAIR: usize = limits::NO_PAIR as usize;

// 1 for a cell that asks nothing, else 0.
fn asks_nothing(cell: usize) -> u64
    ensures { result ≡ bit (eqb cell 255) }
{
    if cell == NO_PAIR {
        return 1;
    }
    0
}

// The set of the variables of which a goal asks nothing.
pub fn free(goal: &[u8; 64], variables: usize) -> u64
    requires { variables ≤ 64 }
    ensures { GoalFree variables goal.now result }
{
    let mut word: u64 = 0;
    for v in (0..variables).rev() {
        word = 2 * word + asks_nothing(goal[v] as usize);
    }
    word
}

// The number of the state with the values that a goal asks, and 0 elsewhere.
pub fn number(goal: &[u8; 64], weights: &[usize; 64], variables: usize) -> usize
    requires { SmallWeights variables weights.now }
    ensures { (sizes : List ℕ) → WeightsOf variables sizes weights.now → result ≡ weighted sizes (goal_values goal.now) variables }
{
    let mut number: usize = 0;
    for v in 0..variables {
        number = weights[v] * moves::set_by(goal[v] as usize) + number;
    }
    number
}
