// The condition pairs of an action, as they stand in the full or the reduced file.
ghost use Rattle.std.specs.Prelude.{◌≡◌};
ghost use Rattle.files.specs.Outcome.{outcome_of};
ghost use Rattle.reduction.specs.Clauses.{HasAction};
ghost use Rattle.reduction.specs.Stretch.{side_of, stretch_outcome, condition_bytes};

use files::refusals::{Reason, Refusal};
use files::task;
use plans::{OriginalAction, ReducedAction};

// The file of a side: 0 the first, any other number the second.
fn side_of<'a>(side: u32, full: &'a [u8], reduced: &'a [u8]) -> &'a [u8]
    ensures { result.now ≡ side_of side full.now reduced.now }
{
    if side == 0 {
        return full;
    }
    reduced
}

// The first file is checked whole, then the second, then the action against the side's count.
pub fn check<'a>(full: &'a [u8], reduced: &'a [u8], side: u32, action: usize) -> Result<(), Refusal>
    ensures { outcome_of result ≡ stretch_outcome full.now reduced.now side action }
{
    files::check_task(full)?;
    if let Err(refusal) = files::check_task(reduced) {
        return Err(refusal.of_second());
    }
    let actions = task::actions_in(side_of(side, full, reduced));
    if actions <= action {
        return Err(Refusal::at(Reason::OutOfRange, 0));
    }
    Ok(())
}

// The condition pairs of an action of an accepted file, which lie within it.
fn pairs_of<'a>(s: &'a [u8], action: usize) -> &'a [u8]
    requires { HasAction s.now action }
    ensures { result.now ≡ condition_bytes s.now action }
{
    let at = task::action_place(s, action);
    let conditions = task::conditions_in(s, at);
    let from = at + 12;
    let to = from + 4 * conditions;
    &s[from..to]
}

// The condition pairs of an action of the full task, in its file.
pub fn original_pairs<'a>(full: &'a [u8], action: OriginalAction) -> &'a [u8]
    requires { HasAction full.now action.0 }
    ensures { result.now ≡ condition_bytes full.now action.0 }
{
    pairs_of(full, action.0 as usize)
}

// The condition pairs of an action of the reduced task, in its file.
pub fn reduced_pairs<'a>(reduced: &'a [u8], action: ReducedAction) -> &'a [u8]
    requires { HasAction reduced.now action.0 }
    ensures { result.now ≡ condition_bytes reduced.now action.0 }
{
    pairs_of(reduced, action.0 as usize)
}
