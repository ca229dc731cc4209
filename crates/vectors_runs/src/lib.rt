// What judges the cases on the operations of a run. A group is a module, whose function `passes` says whether the case
// in a payload passes; a payload that is not of the group's layout does not.
#![tactic(auto)]

pub mod operations;
pub mod records;
mod slots;
