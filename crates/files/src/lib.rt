// Signed files: tasks, origins and plans as bytes, read with refusals and written under a signer.
// The calls open to callers are check_task and check_origin; the public modules serve the layers above.
#![tactic(auto)]

pub mod arrays;
pub mod bytes;
pub mod decode;
pub mod limits;
pub mod origin;
pub mod plan;
mod reader;
pub mod records;
pub mod refusals;
pub mod task;
pub mod units;
pub mod write;
pub mod write_origin;

ghost use Rattle.std.specs.Prelude.{◌≡◌};
ghost use Rattle.files.specs.OriginFile.{check_origin};
ghost use Rattle.files.specs.Outcome.{outcome_of};
ghost use Rattle.files.specs.TaskFile.{check_task};

use refusals::{Reason, Refusal};

// Whether a file is a task file.
#[tactic(auto, using(crate::proofs::Guards::forms), unfolding(crate::specs::TaskFile::check_task, crate::specs::Records::size_fits))]
pub fn check_task(file: &[u8]) -> Result<(), Refusal>
    ensures { outcome_of result ≡ check_task file.now }
{
    if limits::MOST_BYTES < file.len() {
        return Err(Refusal::at(Reason::OutsideLimits, 0));
    }
    task::check_header(file)?;
    task::check_variables(file, 8, task::variables_in(file))?;
    task::check_goal(file, task::goal_place(file))?;
    task::check_actions(file, task::actions_place(file), task::actions_in(file))
}

// Whether a file is an origin file.
#[tactic(auto, using(crate::proofs::Guards::forms), unfolding(crate::specs::OriginFile::check_origin, crate::specs::Records::size_fits))]
pub fn check_origin(file: &[u8]) -> Result<(), Refusal>
    ensures { outcome_of result ≡ check_origin file.now }
{
    if limits::MOST_BYTES < file.len() {
        return Err(Refusal::at(Reason::OutsideLimits, 0));
    }
    origin::check_variables(file, origin::variables_in(file))?;
    let at = origin::actions_place(file);
    records::check_head(file, at, records::ACTION_ORIGIN)?;
    origin::check_actions(file, at + 4, records::body_length(file, at) / 2)?;
    records::check_sign_off(file, reader::record_after(file, at))
}
