// The words of a command line: which options are given, with which words.
#![tactic(auto)]

mod budgets;
pub mod options;

pub use budgets::read_budget;
pub use options::{Options, Stage, read_options};
