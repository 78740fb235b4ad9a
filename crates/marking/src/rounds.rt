// The rounds of marking, on the arrays of a task.
ghost use Rattle.std.specs.Prelude.{◌≡◌, ◌+◌, ◌≤◌, true, eqb, replicate};
ghost use Rattle.files.specs.Accepted.{accepted_task};
ghost use Rattle.files.specs.Below.{sum_of};
ghost use Rattle.files.specs.Dense.{held};
ghost use Rattle.files.specs.Outcome.{done};
ghost use Rattle.marking.specs.Dense.{SetWhere, row_names, Final};
ghost use Rattle.marking.specs.Levels.{level_number};
ghost use Rattle.marking.specs.Mark.{MarksTask, mark_buffers, marked_of};

use crate::levels::Level;
use crate::{Counts, cover_table, covering, gains, links, results};
use files::arrays::Arrays;
use files::limits;
use files::refusals::{Reason, Refusal};

// The marks after a round: kept actions, relevant facts, and of those the unlinked ones.
// Kept: bytes 0 and 1 in place of `bool`, since the definitions of marks (`is_marked`, `SetWhere`, `Final`) are of
// lists of numbers, and layers above hand their own bytes to the same functions.
#[derive(Clone, Copy)]
pub struct Marks {
    pub kept: [u8; 512],
    pub facts: [u8; 2048],
    pub unlinked: [u8; 2048],
    pub rounds: usize,
}

impl Marks {
    // The start: the goal's facts, and no action.
    fn first(task: &Arrays, level: Level) -> Marks
        requires { task.now.variables ≤ 64 }
        ensures kept { result.kept ≡ replicate 512 0 }
        ensures facts { SetWhere (row_names (eqb (level_number level) 1) task.now.goal 0 task.now.sizes task.now.variables) (replicate 2048 0) result.facts }
        ensures unlinked { result.unlinked ≡ replicate 2048 0 }
        ensures rounds { result.rounds ≡ 0 }
    {
        let mut facts = [0; 2048];
        gains::name_row(&mut facts, task, level.is_whole(), &task.goal, 0);
        Marks {
            kept: [0; 512],
            facts,
            unlinked: [0; 2048],
            rounds: 0,
        }
    }

    // How many actions and facts are marked.
    fn count(&self, actions: usize) -> usize
        requires { actions ≤ 512 }
        ensures { result ≡ sum_of self.now.kept actions + sum_of self.now.facts 2048 }
    {
        results::sum(&self.kept, actions) + results::sum(&self.facts, limits::MOST_FACTS)
    }
}

// The rounds up to the first that changes nothing. Each looks at the actions kept and the facts
// unlinked since the one before. `coverers` has what covered each action when it was last sought.
// Kept: a number as the level, since layers above mark with any (docs/DECISIONS.md, 33).
pub fn run(task: &Arrays, level: u32) -> Marks
    requires { accepted_task (held task.now) ≡ true }
    ensures { Final (held task.now) level result.kept result.facts result.unlinked result.rounds }
{
    let level = Level::like(level);
    let mut could_cover = [0; 4096];
    cover_table::fill(&mut could_cover, task, level);
    let mut marks = Marks::first(task, level);
    let mut kept_before = [0; 512];
    let mut counted_before = [0; 512];
    let mut coverers = [0; 512];
    let mut threats = [0; 64];
    let mut count = marks.count(task.actions);
    // Kept: a `loop` is plainer, since a `for` would need a bound in the code, and an answer behind it.
    loop {
        links::threatened(&mut threats, task, &marks.kept, &kept_before);
        kept_before = marks.kept;
        let unlinked = links::unlinked(task, level, &marks.facts, &threats);
        gains::gain_actions(&mut marks.kept, task, &marks.unlinked, &unlinked);
        marks.unlinked = unlinked;
        let round = covering::Round {
            task,
            level,
            kept: &marks.kept,
            counted_before: &counted_before,
            could_cover: &could_cover,
            tracked: &links::tracked(task.variables, &unlinked),
        };
        let counted = round.counted(&mut coverers);
        let whole = level.is_whole();
        gains::gain_facts(&mut marks.facts, task, whole, &counted, &counted_before);
        counted_before = counted;
        marks.rounds += 1;
        let next = marks.count(task.actions);
        if next == count {
            return marks;
        }
        count = next;
    }
}

// Marks the task that arrays hold, where both buffers are long enough: `kept` for a byte per
// action, `relevant` for a byte per fact.
// Kept: a number as the level, since layers above mark with any (docs/DECISIONS.md, 33).
pub fn mark_task(
    task: &Arrays,
    level: u32,
    kept: &mut [u8],
    relevant: &mut [u8],
) -> Result<Counts, Refusal>
    requires { accepted_task (held task.now) ≡ true }
    ensures { MarksTask done (held task.now) level (mark_buffers kept.old relevant.old) (marked_of result) (mark_buffers kept.new relevant.new) }
{
    let facts = results::sum(&task.sizes, task.variables);
    if kept.len() < task.actions {
        return Err(Refusal::at(Reason::ShortBuffer, task.actions));
    }
    if relevant.len() < facts {
        return Err(Refusal::at(Reason::ShortBuffer, facts));
    }
    let marks = run(task, level);
    results::write_actions(kept, &marks.kept, task.actions);
    results::write_facts(relevant, &marks.facts, &marks.unlinked, task);
    Ok(Counts {
        action_marks: task.actions,
        fact_marks: facts,
        rounds: marks.rounds,
    })
}
