// One byte of a bracket of an ERE, plain or escaped.
#![tactic(auto)]

pub mod members;
