// Minutes, steps and action numbers: each has a type of its own, in which it passes from function to
// function, so that none is taken for another. Arrays, and places in them, are of plain numbers.

ghost use Rattle.files.specs.Clauses.{IsBelow};

// A cost. C callers lend entries that hold one.
#[repr(C)]
#[derive(Clone, Copy, Debug, PartialEq, Eq, PartialOrd, Ord)]
pub struct Minutes(pub u64);

// A number of steps. C callers lend entries that hold one.
#[repr(C)]
#[derive(Clone, Copy, Debug, PartialEq, Eq, PartialOrd, Ord)]
pub struct Steps(pub u16);

// An action's number in the full task.
#[derive(Clone, Copy, Debug, PartialEq, Eq)]
pub struct OriginalAction(pub u16);

// An action's number in the reduced task.
#[derive(Clone, Copy, Debug, PartialEq, Eq)]
pub struct ReducedAction(pub u16);

// The minutes of a cost.
impl From<u32> for Minutes {
    ghost from_gives = { λ cost minutes. IsBelow minutes.0 cost 4294967296 };

    fn from(cost: u32) -> Minutes {
        Minutes(cost as u64)
    }
}
