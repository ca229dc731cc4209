// What the reader of expressions writes for an operand of one token, an ERE, and an operator.
#![tactic(auto)]

pub mod operations;
pub mod parts;
