// Origin files: the check of each record in the order of refusals, and what an accepted file holds.
ghost use Rattle.std.specs.Prelude.{◌≡◌, ◌+◌, ◌*◌, ◌^◌, ◌<◌, length, get_or};
ghost use Rattle.files.specs.Bytes.{u16_at};
ghost use Rattle.files.specs.Clauses.{IsBelow, IsAtMost, NumberAt};
ghost use Rattle.files.specs.OriginFile.{values_in, variable_origin_at, variable_origins_at, action_origins_at, origin_variables_in, origin_actions_place, origin_of};
ghost use Rattle.files.specs.Outcome.{outcome_of};
ghost use Rattle.files.specs.Records.{offset_limit, records_end};

use crate::reader::Reader;
use crate::refusals::{Reason, Refusal};
use crate::units::{OriginalAction, ReducedAction};
use crate::{bytes, limits, reader, records};

// Up to how many variable origins are counted: one more than can pass.
const COUNTED: usize = limits::MOST_VARIABLES + 1;

// How many values the variable origin at `at` gives.
#[tactic(auto, unfolding(crate::specs::OriginFile::values_in))]
pub fn values_in(s: &[u8], at: usize) -> usize
    ensures { IsBelow result (values_in s.now at) 65536 }
{
    let body = records::body_length(s, at);
    if body < 2 {
        return 0;
    }
    (body - 2) / 2
}

// The variable origin at `at`, whose variable is to be `at_least` or above.
#[tactic(auto, using(crate::proofs::Guards::forms), unfolding(crate::specs::OriginFile::variable_origin_at))]
fn check_variable(s: &[u8], at_least: usize, at: usize) -> Result<(), Refusal>
    requires { at < offset_limit }
    ensures { outcome_of result ≡ variable_origin_at s.now at_least at }
{
    records::check_head(s, at, records::VARIABLE_ORIGIN)?;
    let variable = bytes::u16_at(s, at + 4);
    if variable < at_least {
        return Err(Refusal::at(Reason::NotRising, at + 4));
    }
    if limits::MOST_VARIABLES <= variable {
        return Err(Refusal::at(Reason::OutOfRange, at + 4));
    }
    records::check_numbers(limits::MOST_VALUES, s, at + 6, values_in(s, at))
}

// `count` variable origins from the file's start on.
pub(crate) fn check_variables(s: &[u8], count: usize) -> Result<(), Refusal>
    requires { 65540 * count < offset_limit }
    ensures { outcome_of result ≡ variable_origins_at s.now 0 0 count }
{
    let mut reader = Reader { file: s, at: 0 };
    let mut at_least = 0;
    for _ in 0..count {
        check_variable(s, at_least, reader.at)?;
        at_least = variable_at(s, reader.at) + 1;
        reader = reader.past();
    }
    Ok(())
}

// `count` rising numbers of original actions.
pub(crate) fn check_actions(s: &[u8], at: usize, count: usize) -> Result<(), Refusal>
    requires { at + 2 * count < 2 ^ 64 }
    ensures { outcome_of result ≡ action_origins_at s.now 0 at count }
{
    let mut at_least = 0;
    for i in 0..count {
        let place = at + 2 * i;
        let action = bytes::u16_at(s, place);
        if action < at_least {
            return Err(Refusal::at(Reason::NotRising, place));
        }
        if limits::MOST_ACTIONS <= action {
            return Err(Refusal::at(Reason::OutOfRange, place));
        }
        at_least = action + 1;
    }
    Ok(())
}

// How many records of kind 6 stand in a row at the file's start, counted up to `COUNTED`.
pub fn variables_in(s: &[u8]) -> usize
    ensures { IsAtMost result (origin_variables_in s.now) 65 }
{
    let mut reader = Reader { file: s, at: 0 };
    for i in 0..COUNTED {
        if records::kind_at(s, reader.at) != records::VARIABLE_ORIGIN {
            return i;
        }
        reader = reader.past();
    }
    COUNTED
}

// Where the record of kind 7 stands.
pub fn actions_place(s: &[u8]) -> usize
    ensures { IsBelow result (origin_actions_place s.now) 8589934592 }
{
    reader::records_after(s, 0, variables_in(s))
}

// Where the origin of variable `i` stands.
pub fn variable_place(s: &[u8], i: usize) -> usize
    requires { i < 65536 }
    ensures { IsBelow result (records_end s.now 0 i) 8589934592 }
{
    reader::records_after(s, 0, i)
}

// The original number of the variable whose origin stands at `at`, and the new value of its old
// value `d`.
pub fn variable_at(s: &[u8], at: usize) -> usize
    requires { at < offset_limit }
    ensures { IsBelow result (u16_at s.now (at + 4)) 65536 }
{
    bytes::u16_at(s, at + 4)
}

pub fn value_at(s: &[u8], at: usize, d: usize) -> usize
    requires { at + 2 * d < offset_limit }
    ensures { IsBelow result (u16_at s.now (at + 6 + 2 * d)) 65536 }
{
    bytes::u16_at(s, at + 6 + 2 * d)
}

// How many actions a file names.
pub fn actions_in(s: &[u8]) -> usize
    ensures { IsBelow result (length (origin_of s.now).actions) 32768 }
{
    records::body_length(s, actions_place(s)) / 2
}

// The number in the full task of an action, from the record of kind 7, which stands at `place`.
pub fn original(s: &[u8], place: usize, action: ReducedAction) -> OriginalAction
    requires { NumberAt s.now place action.0 }
    ensures { result.0 ≡ get_or (origin_of s.now).actions action.0 0 }
{
    let number = bytes::u16_at(s, place + 4 + 2 * (action.0 as usize));
    OriginalAction(number as u16)
}
