// The form of an image as a state machine: where a walk over it is, and where it goes by each number and text byte.
#![tactic(auto)]

mod stages;

pub use stages::{BYTE, END, State, after, start};
