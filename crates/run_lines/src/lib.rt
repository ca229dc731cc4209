// The record in the working room: fields split off as far as one is asked for.
#![tactic(auto)]

mod lines;

pub use lines::{split_all, split_to};
