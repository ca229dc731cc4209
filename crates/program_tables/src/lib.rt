// What the words of a program name: constants, variables and EREs, in tables, each once.
#![tactic(auto)]

mod tables;
mod texts;

pub use tables::{Entry, enter, entry_in};
pub use texts::{put_value, value_length};
