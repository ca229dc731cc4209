// The number of a value, and the field number that it is.
#![tactic(auto)]

mod numbers;

pub use numbers::{FieldNumber, Taken, field_number, take_number};
