// Plan files: read against a task's number of actions, and written step by step.
ghost use Rattle.std.specs.Prelude.{◌≡◌, ◌++◌, ◌+◌, ◌*◌, ◌<◌, ◌≤◌, length, get_or};
ghost use Rattle.files.specs.Bytes.{u16_bytes, placed};
ghost use Rattle.files.specs.Clauses.{IsBelow, Writable};
ghost use Rattle.files.specs.Outcome.{outcome_of};
ghost use Rattle.files.specs.PlanFile.{check_plan_file, plan_of};

use crate::refusals::{Reason, Refusal};
use crate::units::{OriginalAction, Steps};
use crate::{bytes, limits, reader, records};

// Whether a file is a plan file for a task of so many actions.
#[tactic(auto, using(crate::proofs::Guards::forms), unfolding(crate::specs::PlanFile::check_plan_file, crate::specs::Records::size_fits, crate::specs::PlanFile::steps_in))]
pub fn check(s: &[u8], actions: usize) -> Result<(), Refusal>
    ensures { outcome_of result ≡ check_plan_file actions s.now }
{
    if limits::MOST_BYTES < s.len() {
        return Err(Refusal::at(Reason::OutsideLimits, 0));
    }
    records::check_head(s, 0, records::PLAN)?;
    records::check_numbers(actions, s, 4, records::body_length(s, 0) / 2)?;
    records::check_sign_off(s, reader::record_after(s, 0))
}

// How many steps a plan file holds.
#[tactic(auto, using(crate::proofs::Numbers::numbers_length), unfolding(crate::specs::PlanFile::plan_of, crate::specs::PlanFile::steps_in))]
pub fn steps(s: &[u8]) -> Steps
    ensures { IsBelow result.0 (length (plan_of s.now)) 32768 }
{
    let count = records::body_length(s, 0) / 2;
    Steps(count as u16)
}

// The action of step `i`, which the file holds.
pub fn step(s: &[u8], i: usize) -> OriginalAction
    requires { i < length (plan_of s.now) }
    ensures { result.0 ≡ get_or (plan_of s.now) i 0 }
{
    let number = bytes::u16_at(s, 4 + 2 * i);
    OriginalAction(number as u16)
}

// How many bytes the file of a plan of so many steps takes.
pub fn needed(steps: Steps) -> usize
    ensures { result ≡ 16 + 2 * steps.0 }
{
    16 + 2 * (steps.0 as usize)
}

// Writes the head of a plan record of so many steps.
pub fn put_head(buffer: &mut [u8], steps: Steps)
    requires { 4 ≤ length buffer.old }
    ensures { buffer.new ≡ placed buffer.old 0 (u16_bytes (2 * steps.0) ++ u16_bytes 8) }
{
    records::put_head(buffer, 0, records::PLAN, 2 * (steps.0 as usize));
}

// Writes step `i`.
pub fn put_step(buffer: &mut [u8], i: usize, action: OriginalAction)
    requires { Writable (i ≤ 65536) (6 + 2 * i) buffer.old }
    ensures { buffer.new ≡ placed buffer.old (4 + 2 * i) (u16_bytes action.0) }
{
    bytes::put_u16(buffer, 4 + 2 * i, action.0 as usize);
}
