// What files hold, as lines.
// Kept: each number as a `Decimal`, since listings have their digits from the crate `digits`, a rule of the project.
use crate::done::{Counts, Done};
use digits::printed::Decimal;
use files::arrays::Arrays;
use files::limits;
use files::refusals::{Reason, Refusal};
use plans::ReducedAction;
use std::io::Write;
use std::{fmt, io};

// What a file can hold.
#[derive(Clone, Copy, Debug, PartialEq, Eq)]
pub enum Kind {
    Task,
    Origin,
    Plan,
}

// Checks a file as what its first record makes it; one of no other kind as a task.
pub fn check(file: &[u8]) -> Result<Kind, Refusal> {
    let task = files::check_task(file).map(|()| Kind::Task);
    let origin = files::check_origin(file).map(|()| Kind::Origin);
    let plan = files::plan::check(file, limits::MOST_ACTIONS).map(|()| Kind::Plan);
    if begins(&task) {
        task
    } else if begins(&origin) {
        origin
    } else if begins(&plan) {
        plan
    } else {
        task
    }
}

// Whether the first record is of a kind that is due there.
fn begins(checked: &Result<Kind, Refusal>) -> bool {
    match checked {
        Ok(_) => true,
        Err(refusal) => refusal.reason != Reason::NotDue || refusal.place != 0,
    }
}

// The counts and the signer of an accepted file.
pub fn counts(kind: Kind, file: &[u8]) -> Done {
    let signer = files::records::signer(file);
    match kind {
        Kind::Task => Done::Task(Counts {
            variables: files::task::variables_in(file),
            actions: files::task::actions_in(file),
            signer,
        }),
        Kind::Origin => Done::Origin(Counts {
            variables: files::origin::variables_in(file),
            actions: files::origin::actions_in(file),
            signer,
        }),
        Kind::Plan => Done::Plan {
            steps: files::plan::steps(file),
            signer,
        },
    }
}

// What an accepted file holds.
pub fn put_file(out: &mut impl Write, kind: Kind, file: &[u8]) -> io::Result<()> {
    let signer = Decimal(files::records::signer(file) as u64);
    match kind {
        Kind::Task => {
            writeln!(out, "task signer {signer}")?;
            put_task(out, file)
        }
        Kind::Origin => {
            writeln!(out, "origin signer {signer}")?;
            put_origin(out, file)
        }
        Kind::Plan => {
            writeln!(out, "plan signer {signer}")?;
            put_steps(out, file)
        }
    }
}

fn put_task(out: &mut impl Write, file: &[u8]) -> io::Result<()> {
    let mut task = Arrays::empty();
    let _accepted = task.read(file);
    put_variables(out, &task)?;
    writeln!(out, "goal{}", Facts(&task.goal))?;
    put_actions(out, &task)
}

fn put_variables(out: &mut impl Write, task: &Arrays) -> io::Result<()> {
    let both = task.sizes.iter().zip(task.starts.iter());
    for (v, (size, start)) in both.take(task.variables).enumerate() {
        let v = Decimal(v as u64);
        let size = Decimal(u64::from(*size));
        let start = Decimal(u64::from(*start));
        writeln!(out, "variable {v} size {size} start {start}")?;
    }
    Ok(())
}

fn put_actions(out: &mut impl Write, task: &Arrays) -> io::Result<()> {
    let conditions = task.conditions.chunks(limits::ROW);
    let effects = task.effects.chunks(limits::ROW);
    let rows = conditions.zip(effects);
    for (a, (cost, (conditions, effects))) in task
        .costs
        .iter()
        .zip(rows)
        .take(task.actions)
        .enumerate()
    {
        let conditions = Labelled(" if", Facts(conditions));
        let effects = Labelled(" set", Facts(effects));
        let a = Decimal(a as u64);
        let cost = Decimal(u64::from(*cost));
        writeln!(out, "action {a} cost {cost}{conditions}{effects}")?;
    }
    Ok(())
}

// The pairs of a row, each behind a blank.
#[derive(Clone, Copy)]
struct Facts<'a>(&'a [u8]);

impl Facts<'_> {
    fn is_empty(&self) -> bool {
        self.0.iter().all(|value| *value == limits::NO_PAIR)
    }
}

impl fmt::Display for Facts<'_> {
    fn fmt<W: fmt::Write>(&self, f: &mut fmt::Formatter<W>) -> fmt::Result {
        for (variable, value) in self.0.iter().enumerate() {
            if *value != limits::NO_PAIR {
                let variable = Decimal(variable as u64);
                let value = Decimal(u64::from(*value));
                write!(f, " {variable}={value}")?;
            }
        }
        Ok(())
    }
}

// The pairs of a row behind their label, which is left out where there are none.
#[derive(Clone, Copy)]
struct Labelled<'a>(&'a str, Facts<'a>);

impl fmt::Display for Labelled<'_> {
    fn fmt<W: fmt::Write>(&self, f: &mut fmt::Formatter<W>) -> fmt::Result {
        let Labelled(label, facts) = self;
        if facts.is_empty() {
            return Ok(());
        }
        write!(f, "{label}{facts}")
    }
}

fn put_origin(out: &mut impl Write, file: &[u8]) -> io::Result<()> {
    for v in 0..files::origin::variables_in(file) as u16 {
        put_variable_origin(out, file, v)?;
    }
    if 0 < files::origin::actions_in(file) {
        put_action_origins(out, file)?;
    }
    Ok(())
}

// A variable's original number, and the new values of its old values.
fn put_variable_origin(out: &mut impl Write, file: &[u8], v: u16) -> io::Result<()> {
    let at = files::origin::variable_place(file, usize::from(v));
    let variable = Decimal(files::origin::variable_at(file, at) as u64);
    write!(out, "variable {variable} values")?;
    for d in 0..files::origin::values_in(file, at) {
        let value = Decimal(files::origin::value_at(file, at, d) as u64);
        write!(out, " {value}")?;
    }
    writeln!(out)
}

fn put_action_origins(out: &mut impl Write, file: &[u8]) -> io::Result<()> {
    let place = files::origin::actions_place(file);
    write!(out, "actions")?;
    for a in 0..files::origin::actions_in(file) {
        let action = files::origin::original(file, place, ReducedAction(a as u16));
        write!(out, " {}", Decimal(u64::from(action.0)))?;
    }
    writeln!(out)
}

fn put_steps(out: &mut impl Write, file: &[u8]) -> io::Result<()> {
    let steps = files::plan::steps(file);
    for i in 0..steps.0 as usize {
        let action = files::plan::step(file, i);
        writeln!(out, "step {}", Decimal(u64::from(action.0)))?;
    }
    Ok(())
}
