// How a command ends that is done: its last line.
// Kept: each number as a `Decimal`, since listings have their digits from the crate `digits`, a rule of the project.
use digits::printed::Decimal;
use plans::{Minutes, Steps};
use std::fmt;

#[derive(Clone, Copy)]
pub enum Done {
    Task(Counts),
    Origin(Counts),
    Plan {
        steps: Steps,
        signer: usize,
    },
    Shown,
    Marked {
        rounds: usize,
    },
    Reduced {
        rounds: usize,
        turns: Turns,
        reduced: usize,
        origin: usize,
    },
    Planned {
        total: Total,
        turns: Turns,
    },
    Checked(Total),
    Laid {
        total: Total,
        page: usize,
    },
    Translated {
        task: usize,
    },
}

impl fmt::Display for Done {
    fn fmt<W: fmt::Write>(&self, f: &mut fmt::Formatter<W>) -> fmt::Result {
        f.write_str("done")?;
        match *self {
            Done::Task(counts) => write!(f, " task {counts}"),
            Done::Origin(counts) => write!(f, " origin {counts}"),
            Done::Plan { steps, signer } => {
                let steps = Decimal(u64::from(steps.0));
                let signer = Decimal(signer as u64);
                write!(f, " plan steps {steps} signer {signer}")
            }
            Done::Shown => Ok(()),
            Done::Marked { rounds } => write!(f, " rounds {}", Decimal(rounds as u64)),
            Done::Reduced {
                rounds,
                turns,
                reduced,
                origin,
            } => {
                let rounds = Decimal(rounds as u64);
                let reduced = Decimal(reduced as u64);
                let origin = Decimal(origin as u64);
                write!(
                    f,
                    " rounds {rounds}{turns} reduced {reduced} origin {origin}"
                )
            }
            Done::Planned { total, turns } => write!(f, " {total}{turns}"),
            Done::Checked(total) => write!(f, " {total}"),
            Done::Laid { total, page } => write!(f, " {total} page {}", Decimal(page as u64)),
            Done::Translated { task } => write!(f, " task {}", Decimal(task as u64)),
        }
    }
}

// What the file of a task or of origins has.
#[derive(Clone, Copy)]
pub struct Counts {
    pub variables: usize,
    pub actions: usize,
    pub signer: usize,
}

impl fmt::Display for Counts {
    fn fmt<W: fmt::Write>(&self, f: &mut fmt::Formatter<W>) -> fmt::Result {
        let variables = Decimal(self.variables as u64);
        let actions = Decimal(self.actions as u64);
        let signer = Decimal(self.signer as u64);
        write!(f, "variables {variables} actions {actions} signer {signer}")
    }
}

// What a plan comes to.
#[derive(Clone, Copy)]
pub struct Total {
    pub cost: Minutes,
    pub steps: Steps,
}

impl fmt::Display for Total {
    fn fmt<W: fmt::Write>(&self, f: &mut fmt::Formatter<W>) -> fmt::Result {
        write!(
            f,
            "cost {} steps {}",
            Decimal(self.cost.0),
            Decimal(u64::from(self.steps.0))
        )
    }
}

// The turns, of which all levels but 5 have none.
#[derive(Clone, Copy)]
pub struct Turns(pub usize);

impl fmt::Display for Turns {
    fn fmt<W: fmt::Write>(&self, f: &mut fmt::Formatter<W>) -> fmt::Result {
        match self.0 {
            0 => Ok(()),
            turns => write!(f, " turns {}", Decimal(turns as u64)),
        }
    }
}
