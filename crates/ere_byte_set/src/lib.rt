// Sets of bytes as four words of 64 bits.
#![tactic(auto)]

pub mod classes;
