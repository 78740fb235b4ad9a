// Level 5 on the arrays of a task: turns until one leaves the task as it found it.
ghost use Rattle.files.specs.Dense.{held, held_origin};
ghost use Rattle.reduction.specs.TurnsHeld.{TurnReady, TurnLeaves, TurnsReady, TurnsLeave};

use crate::{arrays, chosen, named, origins, reach, renumber};
use files::arrays::{Arrays, OriginArrays};

// A turn: the arrays hold the task that it leaves, and that task's origins. Whether it left the task as
// it found it.
fn turn(task: &mut Arrays, origin: &mut OriginArrays, kept: &[u8; 512]) -> bool
    requires { TurnReady task.old origin.old kept.now }
    ensures { TurnLeaves (held task.old) (held_origin origin.old) task.new origin.new result }
{
    let mut reduced = Arrays::empty();
    let mut later = OriginArrays::empty();
    arrays::fill(task, kept, &mut reduced, &mut later);
    let marks = reach::reached(&reduced);
    let mut left = [0u16; 512];
    let count = named::originals(&mut left, &marks, reduced.actions);
    let kept_numbers = later.originals;
    renumber::map_actions(&mut later.originals, &kept_numbers, &left, count);
    later.actions = count;
    if origins::unmoved(task, &later) {
        return true;
    }
    chosen::choose(&left, count, &reduced, task);
    origins::compose(origin, &later);
    false
}

// The level at which each turn marks.
pub const LEVEL: u32 = 4;

// Turns up to the first that leaves the task as it found it: the arrays hold the task that they leave,
// and its origins in the task that they began with, whose actions of level 4 are marked. How many turns
// there were.
pub fn run(task: &mut Arrays, origin: &mut OriginArrays, kept: &[u8; 512]) -> usize
    requires { TurnsReady task.old kept.now }
    ensures { TurnsLeave (held task.old) task.new origin.new result }
{
    origins::own(origin, task);
    let mut marks = *kept;
    // Kept: a `loop` is plainer, since a `for` would need a bound in the code, and an answer behind it.
    let mut turns: usize = 0;
    loop {
        let unchanged = turn(task, origin, &marks);
        turns += 1;
        if unchanged {
            return turns;
        }
        marks = marking::rounds::run(task, LEVEL).kept;
    }
}
