// The stages of the search: the search itself, in the table that is lent, and the plan file's head.
ghost use Rattle.std.specs.Prelude.{◌≤◌, ◌≡◌, length, take, true};
ghost use Rattle.files.specs.Accepted.{accepted_task};
ghost use Rattle.files.specs.Clauses.{IsBelow};
ghost use Rattle.files.specs.Dense.{held};
ghost use Rattle.files.specs.OriginFile.{origin_actions_place};
ghost use Rattle.files.specs.Outcome.{outcome_of};
ghost use Rattle.search.specs.Planner.{count_fits};
ghost use Rattle.search.specs.ReadOff.{searched_of};
ghost use Rattle.search.specs.Found.{entry_fits, FilesWritten, SearchedIn, SearchedFiles, Begins};
ghost use Rattle.reduction.specs.Reduce.{reduced_of};

use distances::{Entry, states, table};
use files::arrays::Arrays;
use files::refusals::{Reason, Refusal};
use lookup::fact_rows::FactRows;
use lookup::moves::Moves;
use plans::{Minutes, Steps};
use reduction::Counts;

// The search of a reduced task: the task and the look-up tables of its actions, how many states it has,
// the number of the start state, the length of its origin file, and where the record of its actions
// stands in that file.
#[derive(Drop)]
pub struct Search {
    pub task: Arrays,
    pub rows: FactRows,
    pub moves: Moves,
    pub states: usize,
    pub start: usize,
    pub named: usize,
    pub place: usize,
}

// What the search of a task comes to: the entries filled, and the plan file's length, cost and steps.
#[derive(Clone, Copy, Debug, PartialEq, Eq)]
pub struct PlanFound {
    pub states: usize,
    pub plan: usize,
    pub cost: Minutes,
    pub steps: Steps,
}

// Too many states, more of them than there is room for, or done.
fn count_fits(count: usize, room: usize) -> Result<(), Refusal>
    ensures { outcome_of result ≡ count_fits count room }
{
    if states::MOST_STATES < count {
        return Err(Refusal::at(Reason::TooManyStates, 0));
    }
    if room < count {
        return Err(Refusal::at(Reason::ShortBuffer, count));
    }
    Ok(())
}

// No plan, no room for its file, or done, by the entry of the start state.
fn entry_fits(entry: Entry, room: usize) -> Result<(), Refusal>
    ensures { outcome_of result ≡ entry_fits entry room }
{
    if entry.is_none() {
        return Err(Refusal::at(Reason::NoPlan, 0));
    }
    let needed = files::plan::needed(entry.steps);
    if room < needed {
        return Err(Refusal::at(Reason::ShortBuffer, needed));
    }
    Ok(())
}

// Where the actions' numbers stand in the origin file of so many bytes.
fn place_in(origin: &[u8], named: usize) -> usize
    requires { named ≤ length origin.now }
    ensures { IsBelow result (origin_actions_place (take named origin.now)) 8589934592 }
{
    files::origin::actions_place(&origin[..named])
}

impl Search {
    // No task yet.
    pub fn empty() -> Search {
        Search {
            task: Arrays::empty(),
            rows: FactRows::empty(),
            moves: Moves::empty(),
            states: 0,
            start: 0,
            named: 0,
            place: 0,
        }
    }

    // Searches the task: settles its states in the table, and leaves its steps in the look-up tables.
    fn search_task(&mut self, table: &mut [Entry]) -> Result<(), Refusal>
        requires { accepted_task (held self.old.task) ≡ true }
        ensures { SearchedIn (held self.old.task) self.old.named self.old.place (outcome_of result) (searched_of self.new) table.old table.new self.new.task.sizes self.new.task.costs self.new.rows.words self.new.moves.actions }
    {
        let count = states::count(&self.task.sizes, self.task.variables);
        count_fits(count, table.len())?;
        let weights = states::weights(&self.task.sizes, self.task.variables);
        self.moves.fill(&self.task, &weights);
        let start = table::search(
            &self.task,
            &mut table[..count],
            &mut self.rows,
            &self.moves,
            &weights,
        );
        self.rows.fill_cheap(&self.task, table[start].minutes.0);
        self.states = count;
        self.start = start;
        Ok(())
    }

    // Searches the task of the reduced file.
    pub fn search_files(
        &mut self,
        first: &Counts,
        reduced: &[u8],
        origin: &[u8],
        table: &mut [Entry],
    ) -> Result<(), Refusal>
        requires { FilesWritten (reduced_of (Ok first.now)) reduced.now origin.now }
        ensures { SearchedFiles (reduced_of (Ok first.now)) reduced.now origin.now (outcome_of result) (searched_of self.new) table.old table.new self.new.task.sizes self.new.task.costs self.new.rows.words self.new.moves.actions }
    {
        self.task.read(&reduced[..first.reduced])?;
        self.named = first.origin;
        self.place = place_in(origin, first.origin);
        self.search_task(table)
    }

    // What the search comes to by the entry of the start state. Where there is a plan and room for it,
    // its file is begun.
    pub fn begin(&self, plan: &mut [u8], entry: Entry) -> Result<PlanFound, Refusal>
        ensures { Begins self.now.states entry plan.old result plan.new }
    {
        entry_fits(entry, plan.len())?;
        let needed = files::plan::needed(entry.steps);
        files::plan::put_head(plan, entry.steps);
        Ok(PlanFound {
            states: self.states,
            plan: needed,
            cost: entry.minutes,
            steps: entry.steps,
        })
    }
}
