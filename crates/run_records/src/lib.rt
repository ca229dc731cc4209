// The record in the working room: its fields got, and `$0` assigned.
#![tactic(auto)]

mod getting;
mod replacing;

pub use getting::{get_count, get_field, load_field};
pub use replacing::set_record;
