// What judges the cases on images. A group is a module, whose function `passes` says whether the case in a payload
// passes; a payload that is not of the group's layout does not.
#![tactic(auto)]

pub mod checking;
pub mod reading;
pub mod writing;
