// The planner, with a table of its own, and the sheet of a plan.
use crate::bytes::Bytes;
use crate::show::{Ended, Hex, Marks, Turns};
use crate::{Stop, buffers, show};
use files::refusals::Refusal;
use std::alloc::Global;
use std::io::Write;

// The most bytes of a page that are lent.
const PAGE: usize = 140000;

// Prints the answer and the five buffers.
pub fn plan(alloc: Global, out: &mut impl Write, case: &mut Bytes<'_>) -> Result<(), Stop> {
    let level = case.number1()?;
    let signer = case.number4()?;
    let mut actions = buffers::shortened(alloc, usize::from(case.number2()?), buffers::ACTIONS)?;
    let mut facts = buffers::shortened(alloc, usize::from(case.number2()?), buffers::FACTS)?;
    let mut reduced = buffers::shortened(alloc, usize::from(case.number2()?), buffers::FILE)?;
    let mut origin = buffers::shortened(alloc, usize::from(case.number2()?), buffers::FILE)?;
    let mut plan = buffers::shortened(alloc, usize::from(case.number2()?), buffers::FILE)?;
    let answer = search::own_table::plan(
        case.0,
        u32::from(level),
        signer,
        actions.as_mut_slice(),
        facts.as_mut_slice(),
        reduced.as_mut_slice(),
        origin.as_mut_slice(),
        plan.as_mut_slice(),
    );
    print_planned(out, answer)?;
    let (actions, facts) = (Marks(actions.as_slice()), Marks(facts.as_slice()));
    let (reduced, origin) = (Hex(reduced.as_slice()), Hex(origin.as_slice()));
    let plan = Hex(plan.as_slice());
    write!(out, " {actions} {facts} {reduced} {origin} {plan}")?;
    Ok(())
}

// Prints the outcome, the six lengths, the rounds, the turns if there are any, the cost and the
// steps.
fn print_planned(
    out: &mut impl Write,
    answer: Result<search::Counts, Refusal>,
) -> Result<(), Stop> {
    match answer {
        Ok(counts) => write!(
            out,
            "{} {} {} {} {} {} {} {}{} {} {}",
            Ended(None),
            counts.action_marks,
            counts.fact_marks,
            counts.reduced,
            counts.origin,
            counts.table,
            counts.plan,
            counts.rounds,
            Turns(counts.turns),
            counts.cost.0,
            counts.steps.0
        )?,
        Err(refusal) => write!(out, "{} 0 0 0 0 0 0 0 0 0", Ended(Some(refusal)))?,
    }
    Ok(())
}

// Prints the outcome, the bytes of the page, the cost and the steps, then the page, and how many bytes
// behind it are as they were.
pub fn sheet(alloc: Global, out: &mut impl Write, case: &mut Bytes<'_>) -> Result<(), Stop> {
    let room = case.number4()? as usize;
    let length = case.number4()? as usize;
    let task = case.part(length)?;
    let mut page = buffers::shortened(alloc, room, PAGE)?;
    let answer = sheets::sheet(task, case.0, page.as_mut_slice());
    let (written, cost, steps) = match answer {
        Ok(laid) => (laid.length, laid.cost.0, laid.steps.0),
        Err(_) => (0, 0, 0),
    };
    writeln!(out, "{} {written} {cost} {steps}", Ended(answer.err()))?;
    let (lines, behind) = page.as_slice().split_at(written.min(page.len()));
    out.write_all(lines)?;
    write!(out, "{}", show::untouched(behind))?;
    Ok(())
}
