// What each action does to the number of a state.
ghost use Rattle.std.specs.Prelude.{cond, not, ◌&&◌, ◌||◌, List, ◌≡◌, ◌<◌, ◌*◌, ℕ, eqb};
ghost use Rattle.lookup.specs.Moves.{WeightsOf, CanFillMoves, MoveOf, MovesIn};

use bits::sets;
use files::arrays::Arrays;
use files::limits;

const NO_PAIR: usize = limits::NO_PAIR as usize;

// What an action does to the number of a state: what its effects add, what their conditions take away, and
// as the bits of a word the variables that it sets without a condition.
#[derive(Clone, Copy, Debug, PartialEq, Eq)]
pub struct Move {
    pub set: usize,
    pub asked: usize,
    pub free: u64,
}

// The moves of the actions of a task.
#[derive(Clone, Copy)]
pub struct Moves {
    pub actions: [Move; 512],
}

impl Move {
    // The move of action `a`.
    fn of(task: &Arrays, weights: &[usize; 64], a: usize) -> Move
        requires few { CanFillMoves task.now.variables task.now.actions weights.now }
        requires action { a < task.now.actions }
        ensures { (sizes : List ℕ) → WeightsOf task.now.variables sizes weights.now → MoveOf task.now.variables (64 * a) sizes task.now.conditions task.now.effects result }
    {
        let row = limits::ROW * a;
        let mut set: usize = 0;
        let mut asked: usize = 0;
        for v in 0..task.variables {
            let condition = task.conditions[row + v] as usize;
            let effect = task.effects[row + v] as usize;
            set = weights[v] * set_by(effect) + set;
            asked = weights[v] * asked_of(condition, effect) + asked;
        }
        let free = sets::word_of(
            task.variables,
            |v| is_set_freely(task.conditions[row + v], task.effects[row + v]),
        );
        Move { set, asked, free }
    }
}

impl Moves {
    // Moves that change nothing.
    pub fn empty() -> Moves {
        let none = Move {
            set: 0,
            asked: 0,
            free: 0,
        };
        Moves {
            actions: [none; 512],
        }
    }

    // Fills the moves of the actions.
    pub fn fill(&mut self, task: &Arrays, weights: &[usize; 64])
        requires { CanFillMoves task.now.variables task.now.actions weights.now }
        ensures { (sizes : List ℕ) → WeightsOf task.now.variables sizes weights.now → MovesIn task.now.variables task.now.actions sizes task.now.conditions task.now.effects self.new.actions }
    {
        for a in 0..task.actions {
            self.actions[a] = Move::of(task, weights, a);
        }
    }
}

// The value that a cell names, 0 where it names none.
// Kept: the arrays of a task have 255 for no pair, as Dense says, so a cell is no Option.
pub fn set_by(effect: usize) -> usize
    ensures { result ≡ cond (eqb effect 255) 0 effect }
{
    if effect == NO_PAIR {
        return 0;
    }
    effect
}

// The value that a condition asks of a variable with an effect, 0 without both.
fn asked_of(condition: usize, effect: usize) -> usize
    ensures { result ≡ cond (eqb effect 255 || eqb condition 255) 0 condition }
{
    if effect == NO_PAIR {
        return 0;
    }
    set_by(condition)
}

// Whether a variable is set without a condition.
fn is_set_freely(condition: u8, effect: u8) -> bool
    ensures { result ≡ (not (eqb effect 255) && eqb condition 255) }
{
    effect != limits::NO_PAIR && condition == limits::NO_PAIR
}
