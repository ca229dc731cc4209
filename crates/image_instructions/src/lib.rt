// The check of the instructions of a section, each by its numbers.
#![tactic(auto)]

mod context;
mod instructions;

pub use context::Context;
pub use instructions::check_instructions;
