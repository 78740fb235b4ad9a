// The library's calls for C, as include/shortest.h declares them: buffers pass as a pointer and a
// length, and each call writes its answer as eighteen numbers to `out`.
#![tactic(auto)]

mod numbers;

ghost use Rattle.std.specs.Prelude.{◌≡◌};
ghost use Rattle.files.specs.OriginFile.{check_origin};
ghost use Rattle.files.specs.TaskFile.{check_task};
ghost use Rattle.plans.specs.Check.{check_plan};
ghost use Rattle.marking.specs.Mark.{mark_buffers};
ghost use Rattle.reduction.specs.Reduce.{buffers};
ghost use Rattle.search.specs.Planner.{lent_of};
ghost use Rattle.capi.specs.Numbers.{outcome_numbers, checked_numbers};
ghost use Rattle.capi.specs.Calls.{MarksNumbers, ReducesNumbers, PlansNumbers, LaysNumbers, TranslatesNumbers};

// Whether a file is a task file.
#[unsafe(no_mangle)]
pub extern "C" fn shortest_check_task(file: &[u8], out: &mut [u64; 18])
    ensures { out.new ≡ outcome_numbers (check_task file.now) }
{
    numbers::write(files::check_task(file), out);
}

// Whether a file is an origin file.
#[unsafe(no_mangle)]
pub extern "C" fn shortest_check_origin(file: &[u8], out: &mut [u64; 18])
    ensures { out.new ≡ outcome_numbers (check_origin file.now) }
{
    numbers::write(files::check_origin(file), out);
}

// Whether a plan file holds a plan of a task file's task, and its cost and steps.
#[unsafe(no_mangle)]
pub extern "C" fn shortest_check_plan(task: &[u8], plan: &[u8], out: &mut [u64; 18])
    ensures { out.new ≡ checked_numbers (check_plan task.now plan.now) }
{
    numbers::write(plans::check_plan(task, plan), out);
}

// Marks the kept actions and the relevant facts of a task file's task at a level, a byte each.
#[unsafe(no_mangle)]
pub extern "C" fn shortest_mark(
    task: &[u8],
    level: u32,
    actions: &mut [u8],
    facts: &mut [u8],
    out: &mut [u64; 18],
)
    ensures { MarksNumbers task.now level (mark_buffers actions.old facts.old) out.new (mark_buffers actions.new facts.new) }
{
    numbers::write(marking::mark(task, level, actions, facts), out);
}

// Marks the task of a task file at a level, and writes the files of its reduced task and of its
// origins under a signer.
#[unsafe(no_mangle)]
pub extern "C" fn shortest_reduce(
    task: &[u8],
    level: u32,
    signer: u32,
    actions: &mut [u8],
    facts: &mut [u8],
    reduced: &mut [u8],
    origin: &mut [u8],
    out: &mut [u64; 18],
)
    ensures { ReducesNumbers task.now level signer (buffers actions.old facts.old reduced.old origin.old) out.new (buffers actions.new facts.new reduced.new origin.new) }
{
    let answer = reduction::reduce(task, level, signer, actions, facts, reduced, origin);
    numbers::write(answer, out);
}

// Plans the task of a task file: marks and reduces it at a level, searches its states, and writes
// the first of its cheapest plans of fewest steps by original numbers, under a signer.
#[unsafe(no_mangle)]
pub extern "C" fn shortest_plan(
    task: &[u8],
    level: u32,
    signer: u32,
    actions: &mut [u8],
    facts: &mut [u8],
    reduced: &mut [u8],
    origin: &mut [u8],
    table: &mut [distances::Entry],
    plan: &mut [u8],
    out: &mut [u64; 18],
)
    ensures { PlansNumbers task.now level signer (lent_of actions.old facts.old reduced.old origin.old table.old plan.old) out.new (lent_of actions.new facts.new reduced.new origin.new table.new plan.new) }
{
    let answer = search::plan(
        task, level, signer, actions, facts, reduced, origin, table, plan,
    );
    numbers::write(answer, out);
}

// Lays out the plan of a plan file that is a plan of a task file's task as text: a line a step, and
// the signer of the plan file below.
#[unsafe(no_mangle)]
pub extern "C" fn shortest_sheet(task: &[u8], plan: &[u8], page: &mut [u8], out: &mut [u64; 18])
    ensures { LaysNumbers task.now plan.now page.old out.new page.new }
{
    numbers::write(sheets::sheet(task, plan, page), out);
}

// Writes the task that a text of the Fast Downward translator states as a task file, under a signer.
#[unsafe(no_mangle)]
pub extern "C" fn shortest_translate(text: &[u8], signer: u32, file: &mut [u8], out: &mut [u64; 18])
    ensures { TranslatesNumbers text.now signer file.old out.new file.new }
{
    numbers::write(translator::translate(text, signer, file), out);
}
