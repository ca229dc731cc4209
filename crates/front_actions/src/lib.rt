// What the options of a command line ask for.
#![tactic(auto)]

pub mod actions;

pub use actions::{Action, asked_action};
