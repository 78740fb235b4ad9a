// An entry that no state's is above: what is not less than it lowers no entry.
ghost use Rattle.std.specs.Prelude.{length};
ghost use Rattle.distances.specs.Bounds.{NoneAbove, Greater};

use crate::Entry;

// The bound is found anew before one in so many states, by their numbers, is settled.
const STATES: usize = 512;

// The greater of two entries.
fn greater(first: Entry, second: Entry) -> Entry
    ensures { Greater first second result }
{
    if first.is_less(second) { second } else { first }
}

// The greatest entry.
pub fn greatest(entries: &[Entry]) -> Entry
    ensures { NoneAbove (length entries.now) entries.now result }
{
    let mut most = Entry::at_goal();
    for entry in entries {
        most = greater(most, *entry);
    }
    most
}

// The bound before a state is settled: found anew where it is due.
pub fn before(entries: &[Entry], bound: Entry, state: usize) -> Entry
    requires { NoneAbove (length entries.now) entries.now bound }
    ensures { NoneAbove (length entries.now) entries.now result }
{
    if state % STATES == 0 {
        return greatest(entries);
    }
    bound
}
