// What the search looks up of a task.
ghost use Rattle.distances.specs.Tables.{TablesOf};

use files::arrays::Arrays;
use lookup::fact_rows::FactRows;
use lookup::moves::Moves;

// The task, what a change of one in the value of each variable adds to the number of a state, the actions
// that can lead to each fact, and what each action does to the number of a state.
#[derive(Clone, Copy)]
pub struct Tables<'a> {
    pub task: &'a Arrays,
    pub weights: &'a [usize; 64],
    pub rows: &'a FactRows,
    pub moves: &'a Moves,
    pub ghost are_of: { TablesOf task.now weights.now rows.now.words moves.now.actions },
}
