// The work table of a task that arrays hold: for each state the least cost to the goal, and the fewest
// steps at that cost. No call for users; Entry is the type of the tables that they lend.
#![tactic(auto)]

mod bounds;
mod entries;
mod goal;
mod selection;
pub mod states;
mod steps_to;
pub mod table;
mod tables;

// An entry of the work table: the least cost to the goal from a state, then the fewest steps at
// that cost; 2^64 - 1 and 65,535 where the goal cannot be reached. C callers lend such tables.
#[repr(C)]
#[derive(Clone, Copy, Debug, PartialEq, Eq, PartialOrd, Ord)]
pub struct Entry {
    pub minutes: plans::Minutes,
    pub steps: plans::Steps,
}
