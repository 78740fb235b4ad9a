// The sheet for the heading: an accepted plan as text.
#![tactic(auto)]

mod lines;

ghost use Rattle.sheets.specs.Sheet.{LaysSheet, laid_of};

use files::refusals::{Reason, Refusal};
use plans::{Minutes, Steps};

// The most bytes of a page.
pub const MOST_PAGE: usize = lines::LINE * (files::limits::MOST_STEPS + 1);

// The page of a plan: how many bytes it has, and the plan's cost and steps.
#[derive(Clone, Copy)]
pub struct LaidPage {
    pub length: usize,
    pub cost: Minutes,
    pub steps: Steps,
}

// Lays out the plan of a plan file that the plan checker accepts for a task file: a line a step, and
// the signer of the plan file below.
#[tactic(auto, using(crate::proofs::CallLaws::early_answer, crate::proofs::CallLaws::early_page))]
pub fn sheet(task: &[u8], plan: &[u8], page: &mut [u8]) -> Result<LaidPage, Refusal>
    ensures { LaysSheet task.now plan.now page.old (laid_of result) page.new }
{
    let total = plans::check_plan(task, plan)?;
    let length = lines::LINE * (total.steps.0 as usize + 1);
    if page.len() < length {
        return Err(Refusal::at(Reason::ShortBuffer, length));
    }
    let mut costs = [0u32; 512];
    files::decode::read_costs(task, &mut costs);
    lines::put_steps(page, plan, &costs);
    let signer = files::records::signer(plan) as u64;
    lines::put_signed(page, length - lines::LINE, signer);
    Ok(LaidPage {
        length,
        cost: total.cost,
        steps: total.steps,
    })
}
