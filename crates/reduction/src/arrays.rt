// The reduced task and its origins as arrays, and their files.
ghost use Rattle.std.specs.Prelude.{◌≡◌, true};
ghost use Rattle.files.specs.Accepted.{accepted_task};
ghost use Rattle.files.specs.Dense.{held, held_origin};
ghost use Rattle.reduction.specs.Clauses.{OriginFor};
ghost use Rattle.reduction.specs.Filled.{Fills, Writes, WritesReduced};

use crate::{named, renumber};
use files::arrays::{Arrays, OriginArrays};
use files::refusals::{Reason, Refusal};

// Fills arrays with the reduced task and its origins: for each kept variable its number, its domain size
// as it was and a row of new values.
pub fn fill(task: &Arrays, kept: &[u8; 512], reduced: &mut Arrays, origin: &mut OriginArrays)
    requires { accepted_task (held task.now) ≡ true }
    ensures { Fills (held task.now) kept.now task.now.actions reduced.new origin.new }
{
    let named = named::named_facts(task, kept);
    let changed = named::changed(task, kept);
    let values = renumber::new_values(&named, task.variables);
    let v = named::kept_variables(
        &mut origin.numbers,
        task.variables,
        &named,
        &changed,
        &task.starts,
    );
    let n = named::originals(&mut origin.originals, kept, task.actions);
    origin.variables = v;
    origin.actions = n;
    reduced.variables = v;
    reduced.actions = n;
    renumber::new_sizes(&mut reduced.sizes, &task.sizes, &named, &origin.numbers, v);
    renumber::map_row(
        &mut reduced.starts,
        &task.starts,
        &origin.numbers,
        v,
        &values,
    );
    renumber::map_row(&mut reduced.goal, &task.goal, &origin.numbers, v, &values);
    renumber::map_actions(&mut reduced.costs, &task.costs, &origin.originals, n);
    renumber::map_rows(&mut reduced.conditions, &task.conditions, origin, &values);
    renumber::map_rows(&mut reduced.effects, &task.effects, origin, &values);
    renumber::map_variables(&mut origin.sizes, &task.sizes, &origin.numbers, v);
    renumber::value_rows(&mut origin.values, &values, &origin.numbers, v);
}

// How many bytes the files of a task and of its origins have.
#[derive(Clone, Copy, Debug, PartialEq, Eq)]
pub struct Lengths {
    pub reduced: usize,
    pub origin: usize,
}

// Writes the files of a task and its origins that arrays hold, where both buffers are long enough.
pub fn write(
    task: &Arrays,
    origins: &OriginArrays,
    signer: u32,
    reduced: &mut [u8],
    origin: &mut [u8],
) -> Result<Lengths, Refusal>
    requires { OriginFor task.now origins.now }
    ensures { Writes (held task.now) (held_origin origins.now) signer reduced.old origin.old result reduced.new origin.new }
{
    let first = task.file_length();
    let second = origins.file_length();
    if reduced.len() < first {
        return Err(Refusal::at(Reason::ShortBuffer, first));
    }
    if origin.len() < second {
        return Err(Refusal::at(Reason::ShortBuffer, second));
    }
    task.write(reduced, signer as usize);
    origins.write(origin, signer as usize);
    Ok(Lengths {
        reduced: first,
        origin: second,
    })
}

// Writes the files of the reduced task, for the actions that are marked, where both buffers are
// long enough.
pub fn write_reduced(
    task: &Arrays,
    kept: &[u8; 512],
    signer: u32,
    reduced: &mut [u8],
    origin: &mut [u8],
) -> Result<Lengths, Refusal>
    requires { accepted_task (held task.now) ≡ true }
    ensures { WritesReduced (held task.now) kept.now task.now.actions signer reduced.old origin.old result reduced.new origin.new }
{
    let mut small = Arrays::empty();
    let mut origins = OriginArrays::empty();
    fill(task, kept, &mut small, &mut origins);
    write(&small, &origins, signer, reduced, origin)
}
