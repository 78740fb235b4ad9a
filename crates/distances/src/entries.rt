// Entries by value: none, the order, and one step more in front.
ghost use Rattle.std.specs.Prelude.{◌≡◌, true};
ghost use Rattle.files.specs.Task.{Action};
ghost use Rattle.distances.specs.Entries.{no_entry, is_none, first_entry, less_entry, same_entry, after_step, StepOn};

use crate::Entry;
use plans::{Minutes, Steps};

impl Entry {
    // The entry of a state from which the goal cannot be reached.
    // Kept: numbers in place of an `Option`, since C callers lend tables that hold them.
    pub fn none() -> Entry
        ensures { result ≡ no_entry }
    {
        Entry {
            minutes: Minutes(u64::MAX),
            steps: Steps(u16::MAX),
        }
    }

    // Whether an entry is that of none.
    pub fn is_none(self) -> bool
        ensures { result ≡ is_none self }
    {
        let far = Entry::none();
        self.minutes.0 == far.minutes.0
    }

    // The entry of a state at which the goal holds.
    pub fn at_goal() -> Entry
        ensures { result ≡ first_entry true }
    {
        Entry {
            minutes: Minutes(0),
            steps: Steps(0),
        }
    }

    // Whether an entry is less than another.
    pub fn is_less(self, other: Entry) -> bool
        ensures { result ≡ less_entry self other }
    {
        self < other
    }

    // Whether two entries are alike.
    pub fn is_same(self, other: Entry) -> bool
        ensures { result ≡ same_entry self other }
    {
        self == other
    }

    // The entry with one step more in front, by an action of this cost.
    pub fn after_step(self, cost: Minutes) -> Entry
        requires { StepOn self cost.0 }
        ensures { (a : Action) → a.cost ≡ cost.0 → result ≡ after_step a self }
    {
        Entry {
            minutes: Minutes(cost.0 + self.minutes.0),
            steps: Steps(self.steps.0 + 1),
        }
    }
}
