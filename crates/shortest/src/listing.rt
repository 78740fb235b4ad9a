// The lines that the program prints.
// Kept: each number as a `Decimal`, since listings have their digits from the crate `digits`, a rule of the project.
use digits::printed::Decimal;
use files::refusals::Refusal;
use plans::{Minutes, Steps};
use std::fmt;

// A refusal and its place.
#[derive(Clone, Copy)]
pub struct Refused(pub Refusal);

impl fmt::Display for Refused {
    fn fmt<W: fmt::Write>(&self, f: &mut fmt::Formatter<W>) -> fmt::Result {
        let number = Decimal(u64::from(self.0.reason.number()));
        let place = Decimal(self.0.place as u64);
        writeln!(f, "refused {number} at {place}")
    }
}

// A plan: the task file, the file of the reduced task, the plan file, and its total.
#[derive(Clone, Copy)]
pub struct Listing<'a> {
    pub task: &'a [u8],
    pub kept: &'a [u8],
    pub plan: &'a [u8],
    pub cost: Minutes,
    pub steps: Steps,
}

impl fmt::Display for Listing<'_> {
    fn fmt<W: fmt::Write>(&self, f: &mut fmt::Formatter<W>) -> fmt::Result {
        writeln!(f, "task {}", Counts::of(self.task))?;
        writeln!(f, "kept {}", Counts::of(self.kept))?;
        for i in 0..usize::from(files::plan::steps(self.plan).0) {
            let action = files::plan::step(self.plan, i);
            writeln!(f, "step {}", Decimal(u64::from(action.0)))?;
        }
        let cost = Decimal(self.cost.0);
        let steps = Decimal(u64::from(self.steps.0));
        writeln!(f, "cost {cost} steps {steps}")
    }
}

// How many variables and actions the task of an accepted file has.
#[derive(Clone, Copy)]
struct Counts {
    variables: usize,
    actions: usize,
}

impl Counts {
    fn of(file: &[u8]) -> Counts {
        Counts {
            variables: files::task::variables_in(file),
            actions: files::task::actions_in(file),
        }
    }
}

impl fmt::Display for Counts {
    fn fmt<W: fmt::Write>(&self, f: &mut fmt::Formatter<W>) -> fmt::Result {
        let variables = Decimal(self.variables as u64);
        let actions = Decimal(self.actions as u64);
        write!(f, "{variables} {actions}")
    }
}
