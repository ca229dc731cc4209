// Numbers in bytes, the low byte first.
#![tactic(auto)]

mod words;

pub use words::{get_short, get_word, put_short, put_word};
