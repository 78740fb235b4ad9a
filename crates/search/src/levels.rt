// The level that the planner takes, and reduction at it.
ghost use Rattle.std.specs.Prelude.{◌≡◌};
ghost use Rattle.reduction.specs.Reduce.{buffers, Reduces, reduced_of};
ghost use Rattle.search.specs.Planner.{taken_level};

use files::refusals::Refusal;

// The level given where the planner takes it, else 0, which reduction refuses.
fn taken_level(level: u32) -> u32
    ensures { result ≡ taken_level level }
{
    if level == 4 {
        return level;
    }
    if level == 5 {
        return level;
    }
    0
}

// Reduction at the level that the planner takes.
pub fn reduce_taken(
    task: &[u8],
    level: u32,
    signer: u32,
    actions: &mut [u8],
    facts: &mut [u8],
    reduced: &mut [u8],
    origin: &mut [u8],
) -> Result<reduction::Counts, Refusal>
    ensures { Reduces task.now (taken_level level) signer (buffers actions.old facts.old reduced.old origin.old) (reduced_of result) (buffers actions.new facts.new reduced.new origin.new) }
{
    let taken = taken_level(level);
    reduction::reduce(task, taken, signer, actions, facts, reduced, origin)
}
