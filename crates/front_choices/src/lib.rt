// What follows from the words of a command line once its action is chosen: words by number, the budget, the first file,
// and the exit status of an outcome.
#![tactic(auto)]

mod choices;
mod statuses;

pub use choices::{budget_for, first_file, word};
pub use statuses::{IO_FAILED, NO_INPUT, USAGE, status_of};
