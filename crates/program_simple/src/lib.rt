// The reader of simple statements and of conditions.
#![tactic(auto)]

pub mod conditions;
pub mod simple;
