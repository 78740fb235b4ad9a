// What the program counts.
use crate::enumerate::Best;
use std::fmt;

#[derive(Clone, Copy, Debug, Default)]
pub struct Totals {
    // The tasks, and those without a plan, with an empty plan, with several best plans.
    pub tasks: usize,
    pub without: usize,
    pub empty: usize,
    pub tied: usize,
    // The steps of all plans, and the most of one.
    pub steps: usize,
    pub most: usize,
    // By the levels from 1 to 5, the tasks with actions struck.
    pub struck: [usize; 5],
    // The tasks with fewer actions at level 5 than at level 4, with at least 4 turns, and with turns of which
    // all but the last only give values new numbers.
    pub fewer: usize,
    pub turned: usize,
    pub renumbered: usize,
    // The actions that only a cheaper one covers.
    pub covered: usize,
    pub differences: usize,
}

// Counts one more, where there is something to count.
pub fn count(total: &mut usize, holds: bool) {
    *total = total.saturating_add(usize::from(holds));
}

impl Totals {
    // Counts a task by what is found in it.
    pub fn add(&mut self, found: Option<&Best>) {
        count(&mut self.tasks, true);
        count(&mut self.without, found.is_none());
        if let Some(best) = found {
            let steps = best.plan.as_slice().len();
            count(&mut self.empty, steps == 0);
            count(&mut self.tied, best.is_tied);
            self.steps = self.steps.saturating_add(steps);
            self.most = self.most.max(steps);
        }
    }
}

impl fmt::Display for Totals {
    fn fmt<W: fmt::Write>(&self, f: &mut fmt::Formatter<W>) -> fmt::Result {
        writeln!(f, "tasks {}", self.tasks)?;
        writeln!(f, "without a plan {}", self.without)?;
        writeln!(f, "with an empty plan {}", self.empty)?;
        writeln!(f, "with several best plans {}", self.tied)?;
        writeln!(f, "steps {}", self.steps)?;
        writeln!(f, "most steps of a plan {}", self.most)?;
        for (level, struck) in (1..6).zip(self.struck.iter()) {
            writeln!(f, "with actions struck at level {level}: {struck}")?;
        }
        let fewer = self.fewer;
        writeln!(f, "with fewer actions at level 5 than at level 4: {fewer}")?;
        writeln!(f, "with 4 turns or more at level 5: {}", self.turned)?;
        writeln!(f, "with turns that only renumber: {}", self.renumbered)?;
        writeln!(
            f,
            "actions that only a cheaper one covers: {}",
            self.covered
        )?;
        writeln!(f, "differences {}", self.differences)
    }
}
