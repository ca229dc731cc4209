// What judges the cases on filter texts and on whole runs. A group is a module, whose function `passes` says whether
// the case in a payload passes; a payload that is not of the group's layout does not.
#![tactic(auto)]

mod rooms;
pub mod runs;
pub mod translating;
pub mod ways;
