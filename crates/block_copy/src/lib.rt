// Copies of bytes, by words and blocks of 16.
#![tactic(auto)]

mod copies;

pub use copies::{copy, copy_few, copy_over, copy_short};
