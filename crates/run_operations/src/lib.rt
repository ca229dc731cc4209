// Constants and variables: got, and set.
#![tactic(auto)]

mod constants;
mod variables;

pub use constants::push_constant;
pub use variables::{Assigned, get_variable, set_variable};
