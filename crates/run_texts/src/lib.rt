// Operations on texts: length, index, substr and joining. Each takes its operands from slot `a` on, leaves its value in
// slot `a`, and returns 0 or the outcome that it stops with; a stop leaves all values as they were.
#![tactic(auto)]

mod texts;

pub use texts::{index, join, length_of, substr};
