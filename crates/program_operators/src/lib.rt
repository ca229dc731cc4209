// The operators of the tiers.
#![tactic(auto)]

pub mod operators;
