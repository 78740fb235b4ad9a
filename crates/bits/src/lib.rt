// Sets of small numbers as the bits of words. No call for users: marking and the search work on them.
#![tactic(auto)]

pub mod sets;
