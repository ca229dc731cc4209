// Texts as numbers.
#![tactic(auto)]

mod digits;
mod prefix;
mod reading;

pub use digits::{Digits, is_blank, is_digit, read_digits};
pub use reading::{Reading, Unreadable, read_number};
