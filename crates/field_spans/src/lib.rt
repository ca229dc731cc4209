// The spans of all fields of a record.
#![tactic(auto)]

mod spans;

pub use spans::split_into;
