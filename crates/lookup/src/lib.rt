// Look-up tables of a task's actions for the search: by fact, and by what they do to a state's number.
// No call for users.
#![tactic(auto)]

pub mod fact_rows;
pub mod moves;
