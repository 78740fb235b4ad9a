// Calls on a single file or text, and the plan checker.
use crate::Stop;
use crate::buffers::BEFORE;
use crate::bytes::Bytes;
use crate::show::{Ended, Hex};
use files::arrays::Arrays;
use files::limits;
use std::alloc::Global;
use std::io::Write;

pub fn check_task(out: &mut impl Write, file: &[u8]) -> Result<(), Stop> {
    write!(out, "{}", Ended(files::check_task(file).err()))?;
    Ok(())
}

pub fn check_origin(out: &mut impl Write, file: &[u8]) -> Result<(), Stop> {
    write!(out, "{}", Ended(files::check_origin(file).err()))?;
    Ok(())
}

pub fn check_plan_file(out: &mut impl Write, case: &mut Bytes<'_>) -> Result<(), Stop> {
    let actions = case.number1()?;
    let checked = files::plan::check(case.0, usize::from(actions));
    write!(out, "{}", Ended(checked.err()))?;
    Ok(())
}

// Reads a task and, where it is accepted, writes it again: both lengths, and how many bytes at the front
// agree.
pub fn write_again(alloc: Global, out: &mut impl Write, file: &[u8]) -> Result<(), Stop> {
    let mut task = Arrays::empty();
    if let Err(refusal) = task.read(file) {
        write!(out, "{}", Ended(Some(refusal)))?;
        return Ok(());
    }
    // an accepted task is within the limits
    if limits::MOST_VARIABLES < task.variables || limits::MOST_ACTIONS < task.actions {
        return Ok(());
    }
    let mut written = vec![in alloc; 0u8; task.file_length()]?;
    task.write(written.as_mut_slice(), files::records::signer(file));
    let alike = file
        .iter()
        .zip(written.as_slice().iter())
        .take_while(|(read, written)| read == written)
        .count();
    write!(out, "{} {} {alike}", file.len(), written.len())?;
    Ok(())
}

// Prints the outcome, the cost and the steps.
pub fn check_plan(out: &mut impl Write, case: &mut Bytes<'_>) -> Result<(), Stop> {
    let length = case.number2()?;
    let task = case.part(usize::from(length))?;
    let checked = plans::check_plan(task, case.0);
    let (cost, steps) = checked.map_or((0, 0), |total| (total.cost.0, total.steps.0));
    write!(out, "{} {cost} {steps}", Ended(checked.err()))?;
    Ok(())
}

// Prints the outcome, the bytes written and the buffer.
pub fn translate(alloc: Global, out: &mut impl Write, case: &mut Bytes<'_>) -> Result<(), Stop> {
    let signer = case.number4()?;
    let length = case.number2()?;
    let mut task = vec![in alloc; BEFORE; usize::from(length)]?;
    let answer = translator::translate(case.0, signer, task.as_mut_slice());
    let length = answer.unwrap_or(0);
    let task = Hex(task.as_slice());
    write!(out, "{} {length} {task}", Ended(answer.err()))?;
    Ok(())
}
