// Compares what the library answers and writes with what the enumerator finds.
use crate::enumerate::Best;
use crate::task::{File, ROOM, Task};
use files::refusals::{Reason, Refusal};
use plans::{Minutes, Steps};

// What the bytes that are lent for a plan file hold before.
const BEFORE: u8 = 171;

// Whether a refusal says that there is no plan, at no place.
fn is_no_plan(refusal: Refusal) -> bool {
    refusal.reason == Reason::NoPlan && !refusal.in_second && refusal.place == 0
}

// Whether a cost and a number of steps are those that are found.
fn is_total(cost: Minutes, steps: Steps, best: &Best) -> bool {
    cost.0 == u64::from(best.cost) && usize::from(steps.0) == best.plan.as_slice().len()
}

// Whether the planner at a level answers for a file what is found, and writes the plan file and no other
// byte.
pub fn plans_so(file: &[u8], level: u32, signer: u32, found: Option<&Best>, plan: &[u8]) -> bool {
    let mut actions = [0u8; 10];
    let mut facts = [0u8; 16];
    let mut reduced = [0u8; ROOM];
    let mut origin = [0u8; ROOM];
    let mut lent = [BEFORE; ROOM];
    let answer = search::own_table::plan(
        file,
        level,
        signer,
        &mut actions,
        &mut facts,
        &mut reduced,
        &mut origin,
        &mut lent,
    );
    let (written, behind) = lent.split_at(plan.len().min(ROOM));
    let is_found = match (answer, found) {
        (Ok(counts), Some(best)) => {
            is_total(counts.cost, counts.steps, best) && counts.plan == plan.len()
        }
        (Err(refusal), None) => is_no_plan(refusal) && plan.is_empty(),
        _ => false,
    };
    is_found && written == plan && behind.iter().all(|byte| *byte == BEFORE)
}

// Whether the plan checker answers for a plan file what is found.
pub fn checks_so(file: &[u8], plan: &[u8], best: &Best) -> bool {
    plans::check_plan(file, plan).is_ok_and(|total| is_total(total.cost, total.steps, best))
}

// A file reduced at a level: the bytes of the reduced file, and the turns, of which level 5 alone has any.
#[derive(Clone, Copy)]
pub struct Reduced {
    pub file: File,
    pub turns: usize,
    // Whether it is reduced, and has turns at level 5 alone.
    pub is_right: bool,
}

pub fn reduce(file: &[u8], level: u32, signer: u32) -> Reduced {
    let mut actions = [0u8; 10];
    let mut facts = [0u8; 16];
    let mut reduced = [0u8; ROOM];
    let mut origin = [0u8; ROOM];
    let answer = reduction::reduce(
        file,
        level,
        signer,
        &mut actions,
        &mut facts,
        &mut reduced,
        &mut origin,
    );
    let is_right = answer.is_ok_and(|counts| (counts.turns != 0) == (level == 5));
    let counts = answer.unwrap_or_default();
    Reduced {
        file: File::of(reduced, counts.reduced),
        turns: counts.turns,
        is_right,
    }
}

// Whether two tasks have as many variables, values of each and actions.
pub fn same_counts(one: &Task, other: &Task) -> bool {
    let variables = one.variables.as_slice().iter();
    let others = other.variables.as_slice().iter();
    let sizes = variables.map(|variable| variable.size);
    sizes.eq(others.map(|variable| variable.size))
        && one.actions.as_slice().len() == other.actions.as_slice().len()
}

// Whether the same is found in two tasks: no plan, or the cost and the number of steps.
pub fn same_found(one: Option<&Best>, other: Option<&Best>) -> bool {
    match (one, other) {
        (Some(one), Some(other)) => {
            one.cost == other.cost && one.plan.as_slice().len() == other.plan.as_slice().len()
        }
        (None, None) => true,
        _ => false,
    }
}
