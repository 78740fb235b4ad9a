// What a line calls.
use crate::bytes::Bytes;
use crate::{Stop, numbers, planner, reduced, single};
use std::alloc::Global;
use std::io::Write;

// The calls, each with the letter that a case of it begins with, and what its bytes are.
#[derive(Clone, Copy, Debug, PartialEq, Eq)]
pub enum Call {
    // t: a task file is checked.
    Task,
    // o: an origin file is checked.
    Origin,
    // p: a plan file is checked against a task of so many actions as the first byte says.
    Plan,
    // a: a task file is read and written again.
    Again,
    // c: the plan checker; the first two bytes say how many of the others are the task file.
    CheckPlan,
    // m: marking; the first byte is the level, then two bytes each for the lengths of the buffers for
    // action marks and fact marks.
    Mark,
    // r: reduction; the first byte is the level, then four bytes for the signer and two bytes each for
    // the lengths of the buffers for action marks, fact marks, the reduced file and the origin file.
    Reduce,
    // s: the condition pairs of an action; the first byte is the side, then two bytes for the action,
    // and two that say how many of the others are the first file.
    Conditions,
    // P: the planner; the first byte is the level, then four bytes for the signer and two bytes each for
    // the lengths of the buffers for action marks, fact marks, the reduced file, the origin file and the
    // plan file.
    Planner,
    // S: the sheet; the first four bytes are the length of the page buffer, and the next four say how
    // many of the others are the task file.
    Sheet,
    // T: a translator text; the first four bytes are the signer, then two bytes for the length of the
    // buffer for the task file.
    Translate,
    // d: a number in decimal; eight bytes are the number.
    Decimal,
    // e: an entry of the table of digits; two bytes are its place.
    Entry,
}

impl TryFrom<u8> for Call {
    type Error = Stop;

    fn try_from(letter: u8) -> Result<Call, Stop> {
        match letter {
            b't' => Ok(Call::Task),
            b'o' => Ok(Call::Origin),
            b'p' => Ok(Call::Plan),
            b'a' => Ok(Call::Again),
            b'c' => Ok(Call::CheckPlan),
            b'm' => Ok(Call::Mark),
            b'r' => Ok(Call::Reduce),
            b's' => Ok(Call::Conditions),
            b'P' => Ok(Call::Planner),
            b'S' => Ok(Call::Sheet),
            b'T' => Ok(Call::Translate),
            b'd' => Ok(Call::Decimal),
            b'e' => Ok(Call::Entry),
            _ => Err(Stop::NoCase),
        }
    }
}

impl Call {
    // Makes the call, and prints what it answers and the buffers that it was lent.
    pub fn run(self, alloc: Global, out: &mut impl Write, bytes: &[u8]) -> Result<(), Stop> {
        let mut case = Bytes(bytes);
        match self {
            Call::Task => single::check_task(out, bytes),
            Call::Origin => single::check_origin(out, bytes),
            Call::Plan => single::check_plan_file(out, &mut case),
            Call::Again => single::write_again(alloc, out, bytes),
            Call::CheckPlan => single::check_plan(out, &mut case),
            Call::Mark => reduced::mark(alloc, out, &mut case),
            Call::Reduce => reduced::reduce(alloc, out, &mut case),
            Call::Conditions => reduced::conditions(out, &mut case),
            Call::Planner => planner::plan(alloc, out, &mut case),
            Call::Sheet => planner::sheet(alloc, out, &mut case),
            Call::Translate => single::translate(alloc, out, &mut case),
            Call::Decimal => numbers::decimal(out, bytes),
            Call::Entry => numbers::entry(out, bytes),
        }
    }
}
