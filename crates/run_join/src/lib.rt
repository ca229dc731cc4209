// Fields assigned: all fields joined into the other slot of the record.
#![tactic(auto)]

mod assigning;

pub use assigning::{set_field, store_field};
