// What judges the cases on bytes and numbers. A group is a module, whose function `passes` says whether the case in a
// payload passes; a payload that is not of the group's layout does not.
#![tactic(auto)]

pub mod arithmetic;
pub mod compare;
pub mod copies;
pub mod decimal;
pub mod limits;
pub mod reading;
mod rooms;
pub mod search;
pub mod words;
