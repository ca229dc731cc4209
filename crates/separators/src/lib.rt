// What separates fields, and the step from one field to the next.
#![tactic(auto)]

mod kinds;
mod steps;

pub use kinds::{Kind, kind_of};
pub use steps::{Step, next_field};
