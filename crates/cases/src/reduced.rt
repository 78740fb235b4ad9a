// Marking and reduction called alone, and the condition pairs of an action.
use crate::bytes::Bytes;
use crate::show::{Ended, Hex, Marks, Turns};
use crate::{Stop, buffers};
use files::refusals::Refusal;
use std::alloc::Global;
use std::io::Write;

// Prints the outcome, both lengths, the rounds and both buffers.
pub fn mark(alloc: Global, out: &mut impl Write, case: &mut Bytes<'_>) -> Result<(), Stop> {
    let level = case.number1()?;
    let mut actions = buffers::exact(alloc, case.number2()?, buffers::ACTIONS)?;
    let mut facts = buffers::exact(alloc, case.number2()?, buffers::FACTS)?;
    let answer = marking::mark(
        case.0,
        u32::from(level),
        actions.as_mut_slice(),
        facts.as_mut_slice(),
    );
    let ended = Ended(answer.err());
    let marked = answer.unwrap_or_default();
    write!(
        out,
        "{ended} {} {} {}",
        marked.action_marks, marked.fact_marks, marked.rounds
    )?;
    let (actions, facts) = (Marks(actions.as_slice()), Marks(facts.as_slice()));
    write!(out, " {actions} {facts}")?;
    Ok(())
}

// Prints the outcome, the four lengths, the rounds, the turns if there are any, and the four buffers.
pub fn reduce(alloc: Global, out: &mut impl Write, case: &mut Bytes<'_>) -> Result<(), Stop> {
    let level = case.number1()?;
    let signer = case.number4()?;
    let mut actions = buffers::exact(alloc, case.number2()?, buffers::ACTIONS)?;
    let mut facts = buffers::exact(alloc, case.number2()?, buffers::FACTS)?;
    let mut task = buffers::exact(alloc, case.number2()?, buffers::FILE)?;
    let mut origin = buffers::exact(alloc, case.number2()?, buffers::FILE)?;
    let answer = reduction::reduce(
        case.0,
        u32::from(level),
        signer,
        actions.as_mut_slice(),
        facts.as_mut_slice(),
        task.as_mut_slice(),
        origin.as_mut_slice(),
    );
    print_reduced(out, answer.err(), answer.unwrap_or_default())?;
    let (actions, facts) = (Marks(actions.as_slice()), Marks(facts.as_slice()));
    let (task, origin) = (Hex(task.as_slice()), Hex(origin.as_slice()));
    write!(out, " {actions} {facts} {task} {origin}")?;
    Ok(())
}

fn print_reduced(
    out: &mut impl Write,
    refusal: Option<Refusal>,
    counts: reduction::Counts,
) -> Result<(), Stop> {
    write!(
        out,
        "{} {} {} {} {} {}{}",
        Ended(refusal),
        counts.action_marks,
        counts.fact_marks,
        counts.reduced,
        counts.origin,
        counts.rounds,
        Turns(counts.turns)
    )?;
    Ok(())
}

// Prints the outcome of the call, and the pairs.
pub fn conditions(out: &mut impl Write, case: &mut Bytes<'_>) -> Result<(), Stop> {
    let side = case.number1()?;
    let action = case.number2()?;
    let length = case.number2()?;
    let full = case.part(usize::from(length))?;
    let answer = reduction::conditions(full, case.0, u32::from(side), usize::from(action));
    let pairs = Hex(answer.unwrap_or(&[]));
    write!(out, "{} {pairs}", Ended(answer.err()))?;
    Ok(())
}
