// Operations on the values of operands. Each takes its operands from slot `a` on, leaves its value in slot `a`, and
// returns 0 or the outcome that it stops with; a stop leaves all values as they were.
#![tactic(auto)]

mod arithmetic;
mod numbers;

pub use arithmetic::{calculate, negate, to_number};
pub use numbers::{Judged, Truth, is_true, judge, negation, set_truth};
