// The plan read off the work table as it is lent, entry by entry.
ghost use Rattle.std.specs.Prelude.{◌≡◌};
ghost use Rattle.distances.specs.Entries.{table_entry};
ghost use Rattle.search.specs.ReadOff.{searched_of, CanLead, FirstLed, StepsToWrite, StepsWritten};
ghost use Rattle.search.specs.Planner.{search_buffers};
ghost use Rattle.search.specs.Found.{FilesWritten, SearchesFiles};
ghost use Rattle.reduction.specs.Reduce.{reduced_of};

use crate::first_plan::{Here, Step};
use crate::stages::{PlanFound, Search};
use distances::Entry;
use files::refusals::Refusal;
use plans::Steps;
use reduction::Counts;

// The entry of a state; that of none past the end of the table.
fn entry_at(table: &[Entry], state: usize) -> Entry
    ensures { result ≡ table_entry table.now state }
{
    if state < table.len() {
        return table[state];
    }
    Entry::none()
}

// The step by the first action by which a state has its entry.
fn first_step(table: &[Entry], searched: &Search, state: usize, here: &Here) -> Step
    requires { CanLead (table_entry table.now) (searched_of searched.now) state here.now searched.now.task.costs searched.now.moves.actions }
    ensures { FirstLed (table_entry table.now) (searched_of searched.now) state here.now searched.now.task.costs searched.now.moves.actions result }
{
    let own = entry_at(table, state);
    let mut step = searched.step_from(0, state, here);
    // Kept: no index is counted here; each turn goes to the state's next action by its set.
    while searched.looks_on(step, entry_at(table, step.next), own) {
        step = searched.step_after(step, state, here);
    }
    step
}

// Writes so many steps into a plan file, read off the table from the start state on.
fn write_steps(table: &[Entry], plan: &mut [u8], steps: Steps, searched: &Search, origin: &[u8])
    requires { StepsToWrite (table_entry table.now) plan.old steps.0 (searched_of searched.now) origin.now searched.now.task.sizes searched.now.task.costs searched.now.rows.words searched.now.moves.actions }
    ensures { StepsWritten (table_entry table.now) plan.old steps.0 (searched_of searched.now) origin.now searched.now.task.sizes searched.now.task.costs searched.now.rows.words searched.now.moves.actions plan.new }
{
    let count = steps.0 as usize;
    let mut state = searched.start;
    for i in 0..count {
        let here = searched.here(state);
        let step = first_step(table, searched, state, &here);
        state = searched.put_step(plan, i, step, origin);
    }
}

// Searches the task of the reduced file, and reads its plan off the table into the plan file.
pub fn search(
    first: &Counts,
    signer: u32,
    reduced: &[u8],
    origin: &[u8],
    table: &mut [Entry],
    plan: &mut [u8],
) -> Result<PlanFound, Refusal>
    requires { FilesWritten (reduced_of (Ok first.now)) reduced.now origin.now }
    ensures { SearchesFiles (reduced_of (Ok first.now)) reduced.now origin.now signer (search_buffers table.old plan.old) result (search_buffers table.new plan.new) }
{
    let mut searched = Search::empty();
    searched.search_files(first, reduced, origin, table)?;
    let found = searched.begin(plan, entry_at(table, searched.start))?;
    let steps = found.steps;
    write_steps(table, plan, steps, &searched, origin);
    files::records::put_sign_off(plan, 4 + 2 * (steps.0 as usize), signer as usize);
    Ok(found)
}
