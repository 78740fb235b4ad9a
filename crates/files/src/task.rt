// Task files: the check of each record in the order of refusals.
ghost use Rattle.std.specs.Prelude.{◌≡◌, ◌+◌, ◌*◌, ◌^◌, ◌<◌};
ghost use Rattle.files.specs.Bytes.{u16_at};
ghost use Rattle.files.specs.Clauses.{IsBelow, IsAtMost};
ghost use Rattle.files.specs.Outcome.{outcome_of};
ghost use Rattle.files.specs.Records.{offset_limit};
ghost use Rattle.files.specs.TaskFile.{header_at, variables_in, actions_in, variable_at, variables_at, size_at, pair_at, pairs_at, goal_at, conditions_in, effects_in, action_length, effects_place, action_form_at, action_at, actions_at, goal_place, actions_place, action_place};

use crate::reader::Reader;
use crate::refusals::{Reason, Refusal};
use crate::{bytes, limits, reader, records};

// The counts that a header states.
#[tactic(auto, unfolding(crate::specs::TaskFile::variables_in))]
pub fn variables_in(s: &[u8]) -> usize
    ensures { IsBelow result (variables_in s.now) 65536 }
{
    bytes::u16_at(s, 4)
}

#[tactic(auto, unfolding(crate::specs::TaskFile::actions_in))]
pub fn actions_in(s: &[u8]) -> usize
    ensures { IsBelow result (actions_in s.now) 65536 }
{
    bytes::u16_at(s, 6)
}

#[tactic(auto, using(crate::proofs::Guards::forms), unfolding(crate::specs::TaskFile::header_at))]
pub(crate) fn check_header(s: &[u8]) -> Result<(), Refusal>
    ensures { outcome_of result ≡ header_at s.now }
{
    records::check_head(s, 0, records::HEADER)?;
    let variables = bytes::u16_at(s, 4);
    if limits::MOST_VARIABLES < variables {
        return Err(Refusal::at(Reason::OutsideLimits, 4));
    }
    let actions = bytes::u16_at(s, 6);
    if limits::MOST_ACTIONS < actions {
        return Err(Refusal::at(Reason::OutsideLimits, 6));
    }
    Ok(())
}

#[tactic(auto, using(crate::proofs::Guards::forms), unfolding(crate::specs::TaskFile::variable_at))]
fn check_variable(s: &[u8], at: usize) -> Result<(), Refusal>
    requires { at < offset_limit }
    ensures { outcome_of result ≡ variable_at s.now at }
{
    records::check_head(s, at, records::VARIABLE)?;
    let size = bytes::u16_at(s, at + 4);
    if size < 1 {
        return Err(Refusal::at(Reason::OutsideLimits, at + 4));
    }
    if limits::MOST_VALUES < size {
        return Err(Refusal::at(Reason::OutsideLimits, at + 4));
    }
    let start = bytes::u16_at(s, at + 6);
    if size <= start {
        return Err(Refusal::at(Reason::OutOfRange, at + 6));
    }
    Ok(())
}

pub(crate) fn check_variables(s: &[u8], at: usize, count: usize) -> Result<(), Refusal>
    requires { at + 8 * count < offset_limit }
    ensures { outcome_of result ≡ variables_at s.now at count }
{
    for i in 0..count {
        check_variable(s, at + 8 * i)?;
    }
    Ok(())
}

// The domain size of a variable.
#[tactic(auto, unfolding(crate::specs::TaskFile::size_at, crate::specs::TaskFile::variable_place))]
pub fn size_of(s: &[u8], variable: usize) -> usize
    requires { variable < 65536 }
    ensures { IsBelow result (size_at s.now variable) 65536 }
{
    bytes::u16_at(s, 8 * variable + 8 + 4)
}

// The domain size of the variable whose number stands at `at`.
fn size_at(s: &[u8], at: usize) -> usize
    ensures { result ≡ size_at s.now (u16_at s.now at) }
{
    size_of(s, bytes::u16_at(s, at))
}

// The pair at `at`, whose variable is to be `at_least` or above.
#[tactic(auto, using(crate::proofs::Guards::forms), unfolding(crate::specs::TaskFile::pair_at))]
fn check_pair(s: &[u8], at_least: usize, at: usize) -> Result<(), Refusal>
    requires { at + 2 < 2 ^ 64 }
    ensures { outcome_of result ≡ pair_at s.now at_least at }
{
    let variable = bytes::u16_at(s, at);
    if variable < at_least {
        return Err(Refusal::at(Reason::NotRising, at));
    }
    let variables = variables_in(s);
    if variables <= variable {
        return Err(Refusal::at(Reason::OutOfRange, at));
    }
    let value = bytes::u16_at(s, at + 2);
    let size = size_at(s, at);
    if size <= value {
        return Err(Refusal::at(Reason::OutOfRange, at + 2));
    }
    Ok(())
}

// `count` pairs whose variables strictly rise.
fn check_pairs(s: &[u8], at: usize, count: usize) -> Result<(), Refusal>
    requires { at + 4 * count < 2 ^ 64 }
    ensures { outcome_of result ≡ pairs_at s.now 0 at count }
{
    let mut at_least = 0;
    for i in 0..count {
        let place = at + 4 * i;
        check_pair(s, at_least, place)?;
        at_least = bytes::u16_at(s, place) + 1;
    }
    Ok(())
}

#[tactic(auto, using(crate::proofs::Guards::forms), unfolding(crate::specs::TaskFile::goal_at))]
pub(crate) fn check_goal(s: &[u8], at: usize) -> Result<(), Refusal>
    requires { at < offset_limit }
    ensures { outcome_of result ≡ goal_at s.now at }
{
    records::check_head(s, at, records::GOAL)?;
    check_pairs(s, at + 4, records::body_length(s, at) / 4)
}

// The counts of an action record.
#[tactic(auto, unfolding(crate::specs::TaskFile::conditions_in))]
pub fn conditions_in(s: &[u8], at: usize) -> usize
    requires { at < offset_limit }
    ensures { IsBelow result (conditions_in s.now at) 65536 }
{
    bytes::u16_at(s, at + 8)
}

#[tactic(auto, unfolding(crate::specs::TaskFile::effects_in))]
pub(crate) fn effects_in(s: &[u8], at: usize) -> usize
    requires { at < offset_limit }
    ensures { IsBelow result (effects_in s.now at) 65536 }
{
    bytes::u16_at(s, at + 10)
}

// Where the effects of the action record at `at` stand.
#[tactic(auto, unfolding(crate::specs::TaskFile::effects_place))]
pub(crate) fn effects_place(s: &[u8], at: usize) -> usize
    requires { at < offset_limit }
    ensures { IsAtMost result (effects_place s.now at) (at + 262152) }
{
    at + 12 + 4 * conditions_in(s, at)
}

// The body length that an action's counts ask for.
#[tactic(auto, unfolding(crate::specs::TaskFile::action_length))]
fn action_length(s: &[u8], at: usize) -> usize
    requires { at < offset_limit }
    ensures { result ≡ action_length s.now at }
{
    8 + 4 * conditions_in(s, at) + 4 * effects_in(s, at)
}

// An action's cost, counts and body length.
#[tactic(auto, using(crate::proofs::Guards::forms), unfolding(crate::specs::TaskFile::action_form_at))]
fn check_action_form(s: &[u8], at: usize) -> Result<(), Refusal>
    requires { at < offset_limit }
    ensures { outcome_of result ≡ action_form_at s.now at }
{
    let cost = bytes::u32_at(s, at + 4);
    if limits::MOST_COST < cost {
        return Err(Refusal::at(Reason::OutsideLimits, at + 4));
    }
    let conditions = conditions_in(s, at);
    if limits::MOST_PAIRS < conditions {
        return Err(Refusal::at(Reason::OutsideLimits, at + 8));
    }
    let effects = effects_in(s, at);
    if limits::MOST_PAIRS < effects {
        return Err(Refusal::at(Reason::OutsideLimits, at + 10));
    }
    let body = records::body_length(s, at);
    let due = action_length(s, at);
    if body != due {
        return Err(Refusal::at(Reason::WrongLength, at));
    }
    Ok(())
}

#[tactic(auto, using(crate::proofs::Guards::forms), unfolding(crate::specs::TaskFile::action_at))]
fn check_action(s: &[u8], at: usize) -> Result<(), Refusal>
    requires { at < offset_limit }
    ensures { outcome_of result ≡ action_at s.now at }
{
    records::check_head(s, at, records::ACTION)?;
    check_action_form(s, at)?;
    check_pairs(s, at + 12, conditions_in(s, at))?;
    check_pairs(s, effects_place(s, at), effects_in(s, at))
}

// `count` actions from `at` on, and the sign-off behind them.
pub(crate) fn check_actions(s: &[u8], at: usize, count: usize) -> Result<(), Refusal>
    requires { at + 65540 * count < offset_limit }
    ensures { outcome_of result ≡ actions_at s.now at count }
{
    let mut reader = Reader { file: s, at };
    for _ in 0..count {
        check_action(s, reader.at)?;
        reader = reader.past();
    }
    records::check_sign_off(s, reader.at)
}

// Where the goal, the first action and action `a` stand.
#[tactic(auto, unfolding(crate::specs::TaskFile::goal_place, crate::specs::TaskFile::variable_place))]
pub(crate) fn goal_place(s: &[u8]) -> usize
    ensures { IsBelow result (goal_place s.now) 600000 }
{
    8 * variables_in(s) + 8
}

#[tactic(auto, unfolding(crate::specs::TaskFile::actions_place))]
pub(crate) fn actions_place(s: &[u8]) -> usize
    ensures { IsBelow result (actions_place s.now) 700000 }
{
    reader::record_after(s, goal_place(s))
}

pub fn action_place(s: &[u8], a: usize) -> usize
    requires { a < 65536 }
    ensures { IsBelow result (action_place s.now a) 8589934592 }
{
    reader::records_after(s, actions_place(s), a)
}
