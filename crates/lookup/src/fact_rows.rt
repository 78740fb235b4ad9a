// Rows of actions by fact, each the bits of eight words, and a row of those that are cheap enough.
ghost use Rattle.std.specs.Prelude.{◌≡◌, length, get_or};
ghost use Rattle.lookup.specs.FactRows.{can_have, RowsByFact, CanFillRows, CheapRows, RowsFor, EightWords, InCheapRows, VariablePut, RowsInside};

use bits::sets;
use files::arrays::Arrays;
use files::limits;

// So many words hold the rows of every task that is searched, and behind those of the facts one of
// the actions that are cheap enough.
pub const MOST_WORDS: usize = 1192;

// The first word of the row behind those of the facts.
const CHEAP: usize = 1184;

// The rows of a task: for each of its facts, by variable and then by value, the actions of the task that
// have to do with it, and behind them a row of those that are cheap enough. There are words for every
// task that is searched.
#[derive(Clone, Copy)]
pub struct FactRows {
    pub words: [u64; MOST_WORDS],
    pub ghost long: { length words ≡ 1192 },
}

// Whether a variable can have a value after a step.
fn can_have(condition: u8, effect: u8, value: usize) -> bool
    ensures { result ≡ can_have condition effect value }
{
    if effect != limits::NO_PAIR {
        return effect as usize == value;
    }
    if condition != limits::NO_PAIR {
        return condition as usize == value;
    }
    true
}

impl FactRows {
    // Rows without actions.
    pub fn empty() -> FactRows {
        FactRows {
            words: [0; MOST_WORDS],
        }
    }

    // Writes the rows of the facts of variable `v`, the first of which has number `fact`: in each are the
    // actions that can lead to it by these effects.
    fn put_variable(&mut self, fact: usize, task: &Arrays, effects: &[u8; 32768], v: usize)
        requires { RowsInside fact v (get_or task.now.sizes v 0) task.now.actions }
        ensures { VariablePut task.now.conditions effects.now v (get_or task.now.sizes v 0) task.now.actions fact self.old.words self.new.words }
    {
        for value in 0..task.sizes[v] as usize {
            sets::put_all(&mut self.words, 8 * (fact + value), task.actions, |a| {
                let at = limits::ROW * a + v;
                can_have(task.conditions[at], effects[at], value)
            });
        }
    }

    // Fills the rows by these effects.
    fn fill_by(&mut self, task: &Arrays, effects: &[u8; 32768])
        requires { CanFillRows task.now.variables task.now.actions task.now.sizes self.old.words }
        ensures { RowsByFact task.now.variables task.now.actions task.now.sizes task.now.conditions effects.now self.new.words }
    {
        let mut fact: usize = 0;
        for v in 0..task.variables {
            self.put_variable(fact, task, effects, v);
            fact += task.sizes[v] as usize;
        }
    }

    // Fills the rows: in that of each fact are the actions that can lead to it.
    pub fn fill(&mut self, task: &Arrays)
        requires { CanFillRows task.now.variables task.now.actions task.now.sizes self.old.words }
        ensures { RowsByFact task.now.variables task.now.actions task.now.sizes task.now.conditions task.now.effects self.new.words }
    {
        self.fill_by(task, &task.effects);
    }

    // Fills the rows for reading off a plan of so many minutes: in that of each fact are the actions
    // that do not ask for another value, and in the last those that cost no more than the plan.
    pub fn fill_cheap(&mut self, task: &Arrays, most: u64)
        requires { CanFillRows task.now.variables task.now.actions task.now.sizes self.old.words }
        ensures { CheapRows task.now.variables task.now.actions task.now.sizes task.now.conditions task.now.costs most self.new.words }
    {
        self.fill_by(task, &task.conditions);
        sets::put_all(
            &mut self.words,
            CHEAP,
            task.actions,
            |a| u64::from(task.costs[a]) <= most,
        );
    }

    // The actions that are in the row of each value.
    pub fn in_all(&self, task: &Arrays, values: &[u8; 64]) -> [u64; 8]
        requires { RowsFor task.now.variables task.now.sizes values.now self.now.words }
        ensures { EightWords task.now.variables task.now.sizes values.now self.now.words result }
    {
        let mut words = [u64::MAX; 8];
        let mut row: usize = 0;
        for v in 0..task.variables {
            sets::keep(&mut words, &self.words, 8 * (row + values[v] as usize));
            row += task.sizes[v] as usize;
        }
        words
    }

    // Those of them that are cheap enough.
    pub fn cheap_in_all(&self, task: &Arrays, values: &[u8; 64]) -> [u64; 8]
        requires { RowsFor task.now.variables task.now.sizes values.now self.now.words }
        ensures { InCheapRows task.now.variables task.now.sizes values.now self.now.words result }
    {
        let mut words = self.in_all(task, values);
        sets::keep(&mut words, &self.words, CHEAP);
        words
    }
}
