// Generates small random tasks, plans each of them at both levels of the planner, and compares the plan
// with what an enumerator of the full task finds: whether there is a plan, its cost, its steps and the
// very actions. The enumerator also looks into the file of each task reduced at each level. The program
// prints a line for each difference, and lines of totals.
#![tactic(auto)]

mod compare;
mod covering;
mod enumerate;
mod generate;
mod random;
mod state;
mod task;
mod totals;

use enumerate::Best;
use random::Random;
use std::{fmt, io};
use task::{File, Task};
use totals::{Totals, count};

const TASKS: usize = 4000;

// The signers of the tasks' files and of the reduced files.
const SIGNER: u32 = 7;

fn main(rt: HostRuntime) -> io::Result<()> {
    let mut random = Random(20240608);
    let mut run = Run {
        rt: &rt,
        totals: Totals::default(),
        place: 0,
    };
    for place in 0..TASKS {
        run.place = place;
        match generate::task(place, &mut random) {
            Some(task) => run.compare(&task)?,
            None => run.print(Difference::Unmade)?,
        }
    }
    print!(rt; "{}", run.totals)
}

// In what the library differs from the enumerator.
#[derive(Clone, Copy, Debug)]
enum Difference {
    Unmade,
    Unread,
    Planned { level: u32 },
    Checked,
    Reduced,
}

impl fmt::Display for Difference {
    fn fmt<W: fmt::Write>(&self, f: &mut fmt::Formatter<W>) -> fmt::Result {
        match self {
            Difference::Unmade => write!(f, "not made"),
            Difference::Unread => write!(f, "not read"),
            Difference::Planned { level } => write!(f, "planned otherwise at level {level}"),
            Difference::Checked => write!(f, "checked otherwise"),
            Difference::Reduced => write!(f, "other when reduced"),
        }
    }
}

// The run so far: what is counted, and the place of the task that is looked at.
#[derive(Drop)]
struct Run<'a, R: Print> {
    rt: &'a R,
    totals: Totals,
    place: usize,
}

impl<R: Print> Run<'_, R> {
    // Compares all that the library answers for a task with what is found in it.
    fn compare(&mut self, task: &Task) -> io::Result<()> {
        let file = task.file(SIGNER);
        let file = file.as_slice();
        // the enumerator reads the task from the bytes that the library gets
        let Some(task) = Task::read(file) else {
            return self.print(Difference::Unread);
        };
        let task = &task;
        let found = enumerate::find(task);
        let found = found.as_ref();
        self.totals.add(found);
        self.compare_plans(file, found)?;
        let mut left = [0; 5];
        for (level, left) in (1..6).zip(left.iter_mut()) {
            *left = self.compare_reduced(file, task, level, found)?;
        }
        count(&mut self.totals.fewer, left[4] < left[3]);
        let covered = covering::by_cheaper_alone(file, task);
        self.totals.covered = self.totals.covered.saturating_add(covered);
        Ok(())
    }

    // The planner at both levels, and the plan checker.
    fn compare_plans(&mut self, file: &[u8], found: Option<&Best>) -> io::Result<()> {
        let signer = 1 + (self.place % 4096) as u32 * 1048573;
        let plan = match found {
            Some(best) => task::plan_file(best.plan.as_slice(), signer),
            None => File::new(),
        };
        let plan = plan.as_slice();
        for level in [4, 5] {
            if !compare::plans_so(file, level, signer, found, plan) {
                self.print(Difference::Planned { level })?;
            }
        }
        if let Some(best) = found
            && !compare::checks_so(file, plan, best)
        {
            self.print(Difference::Checked)?;
        }
        Ok(())
    }

    // The task reduced at a level, in which the same is to be found. Answers how many actions are left.
    fn compare_reduced(
        &mut self,
        file: &[u8],
        task: &Task,
        level: u32,
        found: Option<&Best>,
    ) -> io::Result<usize> {
        let reduced = compare::reduce(file, level, SIGNER);
        let Some(left) = Task::read(reduced.file.as_slice()) else {
            self.print(Difference::Reduced)?;
            return Ok(0);
        };
        let again = enumerate::find(&left);
        if !reduced.is_right || !compare::same_found(again.as_ref(), found) {
            self.print(Difference::Reduced)?;
        }
        self.count_reduced(task, &left, level, reduced.turns);
        Ok(left.actions.as_slice().len())
    }

    fn count_reduced(&mut self, task: &Task, left: &Task, level: u32, turns: usize) {
        let is_struck = left.actions.as_slice().len() < task.actions.as_slice().len();
        for (each, struck) in (1..6).zip(self.totals.struck.iter_mut()) {
            count(struck, is_struck && each == level);
        }
        count(&mut self.totals.turned, 3 < turns);
        let only_renumbers = 1 < turns && compare::same_counts(task, left);
        count(&mut self.totals.renumbered, only_renumbers);
    }

    // Counts and prints a difference.
    fn print(&mut self, difference: Difference) -> io::Result<()> {
        count(&mut self.totals.differences, true);
        println!(self.rt; "{difference}: task {}", self.place)
    }
}
