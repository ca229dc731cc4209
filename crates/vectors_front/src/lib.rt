// What judges the cases on the parts of the program that read and write no files: its messages and its command line. A
// group is a module, whose function `passes` says whether the case in a payload passes.
#![tactic(auto)]

pub mod budgets;
pub mod options;
pub mod refusals;
pub mod summaries;
